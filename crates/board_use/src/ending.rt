// How a board ends that was used.
ghost use Rattle.std.specs.Prelude.{◌≡◌, ◌++◌, length, IfOk, List, OnOk};
ghost use Rattle.board_hosts.specs.declared.host.Receipt.{Receipt};
ghost use Rattle.worker_turns.specs.declared.awaiting.Seen.{Seen};
ghost use Rattle.board_desk.specs.Desk.{shape_named};
ghost use Rattle.board_use.specs.Ends.{EndsLife, answers_of, receipts_of};

use crate::hosting::HostEnd;
use arm_state::Loss;
use board_hosts::{BoardName, Closed, Cut, Host, Receipt, RecordedModule, Seen, Stranger};
use channel_locks::PartsName;
use channel_port::ChannelPort;
use energy_budget::Energy;
use line_memory::History;
use notice_book::Notices;
use save_device::SaveDevice;
use split_board::{Board, NotClosed, close};
use std::alloc::{AllocError, Global};

/// Why receipts and answers weren't checked.
#[derive(Clone, Copy, Debug, PartialEq, Eq)]
pub enum Unchecked {
    /// One of them is none of this board's. Receipts and answers are counted in the order of the seats.
    Stranger(Stranger),
    /// There was no memory to put them together.
    Memory,
}

/// The end of a life: the device and the gauge, the record of the life, how many writes it had accepted and how many were persistent,
/// and what became of the receipts and the answers that were to be checked.
#[derive(Drop)]
pub struct LifeEnd<D, E> {
    pub device: D,
    pub energy: E,
    pub history: History,
    pub accepted: u64,
    pub mark: u64,
    pub checked: Result<Cut, Unchecked>,
}

/// A board that was used and has ended: what each host came to, in the order of the seats, what the loss of its mains came to, where
/// a host lost them, and the end of the life.
#[derive(Drop)]
pub struct BoardEnd<D, E, T> {
    pub hosts: Vec<HostEnd<T>>,
    pub loss: Option<Loss>,
    pub life: LifeEnd<D, E>,
}

/// What all hosts want checked.
#[derive(Drop)]
struct Wanted {
    receipts: Vec<Receipt>,
    answers: Vec<Seen>,
}

// Adds those of a host.
fn add<T>(wanted: &mut Wanted, end: &HostEnd<T>) -> Result<(), AllocError>
    ensures receipts { OnOk result
        (wanted.new.receipts.items ≡ wanted.old.receipts.items ++ end.now.receipts.items) }
    ensures answers { OnOk result
        (wanted.new.answers.items ≡ wanted.old.answers.items ++ end.now.answers.items) }
{
    wanted.receipts.extend_from_slice(end.receipts.as_slice())?;
    wanted.answers.extend_from_slice(end.answers.as_slice())?;
    Ok(())
}

// Puts receipts and answers together, seat by seat.
fn gather<T>(alloc: Global, ends: &[HostEnd<T>]) -> Result<Wanted, AllocError>
    ensures receipts { IfOk result (λ wanted. wanted.receipts.items ≡ receipts_of ends.now) }
    ensures answers { IfOk result (λ wanted. wanted.answers.items ≡ answers_of ends.now) }
{
    let mut wanted = Wanted {
        receipts: Vec::new(alloc),
        answers: Vec::new(alloc),
    };
    for end in ends {
        add(&mut wanted, end)?;
    }
    Ok(wanted)
}

// What a closed board leaves.
fn left_by<K, D, E, N>(closed: Closed<K, D, E, N>, checked: Result<Cut, Unchecked>) -> LifeEnd<D, E>
where
    K: ChannelPort + Drop,
    D: SaveDevice + Drop,
    E: Energy + Drop,
    N: Drop,
    ensures device { result.device ≡ closed.recorded.device }
    ensures energy { result.energy ≡ closed.recorded.energy }
    ensures history { result.history ≡ closed.recorded.history }
    ensures accepted { result.accepted ≡ closed.recorded.running.front.accepted }
    ensures mark { result.mark ≡ closed.recorded.running.front.persisted }
    ensures checked { result.checked ≡ checked }
{
    let RecordedModule {
        running,
        device,
        energy,
        history,
    } = closed.recorded;
    LifeEnd {
        device,
        energy,
        history,
        accepted: running.accepted(),
        mark: running.mark(),
        checked,
    }
}

// Ends a board without a check.
fn close_unchecked<K, D, E, B, N>(
    board: Board<K, D, E, B, N>,
    hosts: Vec<Host<B>>,
    why: Unchecked,
) -> LifeEnd<D, E>
where
    K: ChannelPort + Drop,
    D: SaveDevice + Drop,
    E: Energy + Drop,
    B: BoardName + PartsName,
    N: Notices + Drop,
    requires { length hosts.items ≡ B.parts }
    ensures { (receipts : List Receipt) (answers : List Seen)
        → ∥ (EndsLife D.SaveDevice E.Energy (shape_named B.PartsName.own) B.base
        receipts answers result) ∥₁ }
{
    match close(board, hosts, &[], &[]) {
        Ok(closed) => left_by(closed, Err(why)),
        Err(_) => unreachable!(),
    }
}

/// Ends a board and checks what its hosts want checked. A stranger among it is named, and the board ends all the same.
pub(crate) fn close_checked<K, D, E, B, N, T>(
    alloc: Global,
    board: Board<K, D, E, B, N>,
    hosts: Vec<Host<B>>,
    ends: &[HostEnd<T>],
) -> LifeEnd<D, E>
where
    K: ChannelPort + Drop,
    D: SaveDevice + Drop,
    E: Energy + Drop,
    B: BoardName + PartsName,
    N: Notices + Drop,
    requires { length hosts.items ≡ B.parts }
    ensures { ∥ (EndsLife D.SaveDevice E.Energy (shape_named B.PartsName.own) B.base
        (receipts_of ends.now) (answers_of ends.now) result) ∥₁ }
{
    let Ok(wanted) = gather(alloc, ends) else {
        return close_unchecked(board, hosts, Unchecked::Memory);
    };
    let (receipts, answers) = (wanted.receipts.as_slice(), wanted.answers.as_slice());
    match close(board, hosts, receipts, answers) {
        Ok(closed) => {
            let told = Cut {
                from: closed.from,
                checked: closed.checked,
                past: closed.past,
            };
            left_by(closed, Ok(told))
        }
        Err(
            NotClosed {
                stranger,
                board,
                hosts,
            },
        ) => close_unchecked(board, hosts, Unchecked::Stranger(stranger)),
    }
}
