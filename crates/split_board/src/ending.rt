// The end of a board.
ghost use Rattle.std.specs.Prelude.{◌≡◌, ◌+◌, ◌≤◌, All, length, sum_by, IfErr, IfOk};
ghost use Rattle.board_desk.specs.declared.desk.Desk.{Desk};
ghost use Rattle.board_hosts.specs.Ending.{HasChecked, IsStranger, cut};
ghost use Rattle.board_hosts.specs.Kept.{IsRecordKept};
ghost use Rattle.split_board.specs.Starting.{LiesBehindLocks};

use crate::board::Board;
use board_desk::{BoardPort, Desk, LockedDesk, gather_all};
use board_hosts::{BoardName, Closed, Host, Receipt, Seen, Stranger};
use channel_locks::PartsName;
use channel_port::ChannelPort;
use energy_budget::Energy;
use notice_book::Notices;
use save_device::SaveDevice;

/// A board that wasn't closed, since a receipt or an answer is a stranger to its life. Its hosts are as they were.
#[derive(Drop)]
pub struct NotClosed<
    K: ChannelPort,
    D: SaveDevice,
    E: Energy,
    B: BoardName + PartsName,
    N: Notices,
> {
    pub stranger: Stranger,
    pub board: Board<K, D, E, B, N>,
    pub hosts: Vec<Host<B>>,
}

/// Ends a board once all its threads were joined, with all its hosts: the receipts and the answers are checked against the
/// history, and then the module is put together from what lay behind the locks, as it lay there, and comes back with its record and
/// the notices.
/// Where the board was cut, receipts with numbers below `from` and answers given behind fewer writes are past: they are counted,
/// and not checked. A stranger among the others gives the board and the hosts back; the locks of the channels weren't touched then. It
/// takes no memory.
pub fn close<K, D, E, B, N>(
    board: Board<K, D, E, B, N>,
    hosts: Vec<Host<B>>,
    receipts: &[Receipt],
    answers: &[Seen],
) -> Result<Closed<BoardPort<K, B>, D, E, N>, NotClosed<K, D, E, B, N>>
where
    K: ChannelPort + Drop,
    D: SaveDevice + Drop,
    E: Energy + Drop,
    B: BoardName + PartsName,
    N: Notices + Drop,
    requires { length hosts.items ≡ B.parts }
    ensures checked { IfOk result (λ c. HasChecked ⟦<BoardPort<K, B> as ChannelPort>⟧ c.recorded
        receipts.now answers.now (cut c.from c.checked c.past)) }
    ensures shares { IfOk result (λ c. c.recorded.running.front.accepted
        ≡ c.recorded.running.front.terms.start + B.before + sum_by (λ h. h.writes) hosts.items) }
    ensures marks { IfOk result (λ c.
        All (λ h. h.persisted ≤ c.recorded.running.front.persisted) hosts.items) }
    ensures kept { IfOk result (λ c. IsRecordKept ⟦<BoardPort<K, B> as ChannelPort>⟧
        D.SaveDevice E.Energy c.recorded) }
    ensures lay { IfOk result (λ c. LiesBehindLocks K.ChannelPort D.SaveDevice E.Energy
        B.BoardName.own B.PartsName.own ⟦<BoardPort<K, B> as ChannelPort>⟧ c.recorded) }
    ensures hosts { IfErr result (λ left. left.hosts ≡ hosts) }
    ensures channels { IfErr result (λ left. left.board.channels ≡ board.channels) }
    ensures lines { IfErr result (λ left. left.board.lines ≡ board.lines) }
    ensures stranger { IfErr result (λ left.
        (desk : Desk K D E B K.ChannelPort D.SaveDevice E.Energy B.BoardName.own B.PartsName.own)
        × IsStranger desk.split.front.terms.start desk.history
        receipts.now answers.now left.stranger) }
{
    let Board {
        desk,
        channels,
        lines,
        notices,
    } = board;
    let notices = notices.into_inner();
    let LockedDesk { desk } = desk.into_inner();
    let Some(mut desk) = desk else {
        unreachable!();
    };
    let told = match desk.check(receipts, answers) {
        Ok(told) => told,
        Err(stranger) => {
            return Err(NotClosed {
                stranger,
                board: Board::new(desk, channels, lines, notices),
                hosts,
            });
        }
    };
    let channels = desk.unlock(channels);
    Ok(Closed {
        recorded: gather_all(desk, channels).end(hosts),
        notices,
        from: told.from,
        checked: told.checked,
        past: told.past,
    })
}
