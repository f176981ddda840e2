// The cut of a board.
ghost use Rattle.split_board.specs.Wholes.{CutsLocked, LentForCut};

use crate::board::Board;
use board_desk::{CutCall, LockedDesk, whole};
use board_hosts::{BoardName, Cut, Receipt, Seen, Stranger};
use channel_locks::{LockedChannels, PartsName, take_lock};
use channel_port::ChannelPort;
use energy_budget::Energy;
use notice_book::Notices;
use save_device::SaveDevice;
use std::sync::Wait;

// Checks and cuts, with the board's lock held. The channels' locks are taken where no stranger was found.
fn cut_locked<K, D, E, B, R>(
    rt: &R,
    locked: &mut LockedDesk<K, D, E, B>,
    channels: &LockedChannels<K, B>,
    receipts: &[Receipt],
    answers: &[Seen],
) -> Result<Cut, Stranger>
where
    K: ChannelPort + Drop,
    D: SaveDevice + Drop,
    E: Energy + Drop,
    B: BoardName + PartsName,
    R: Wait,
    ensures { CutsLocked K.ChannelPort D.SaveDevice E.Energy B.BoardName.own B.PartsName.own
        receipts.now answers.now result locked.old.desk locked.new.desk }
{
    let Some(desk) = &locked.desk else {
        unreachable!();
    };
    match desk.check(receipts, answers) {
        Ok(told) => {
            let from = whole(rt, locked, channels, CutCall);
            Ok(Cut { from, ..told })
        }
        Err(stranger) => Err(stranger),
    }
}

impl<K, D, E, B, N> Board<K, D, E, B, N>
where
    K: ChannelPort + Drop,
    D: SaveDevice + Drop,
    E: Energy + Drop,
    B: BoardName + PartsName,
    N: Notices,
{
    /// Checks receipts and answers against the stored writes, and then takes off those that the newest image holds, so that as many
    /// more may be accepted: they go into the record's memory, in place. A stranger among the receipts and the answers is named, and
    /// then nothing was cut. It may be called at any time, also while a save runs and after a loss of mains, and takes no memory.
    pub fn cut<R: Wait>(
        &self,
        rt: &R,
        receipts: &[Receipt],
        answers: &[Seen],
    ) -> Result<Cut, Stranger>
        ensures { LentForCut K.ChannelPort D.SaveDevice E.Energy B.BoardName.own B.PartsName.own
            receipts.now answers.now result }
    {
        let mut locked = take_lock(rt, &self.desk);
        cut_locked(rt, &mut *locked, &self.channels, receipts, answers)
    }
}
