// A host that waits until a write is persistent.
ghost use Rattle.std.specs.Prelude.{◌≡◌, ◌<◌, ◌≤◌, true, IfErr, IfOk};
ghost use Rattle.channel_locks.specs.Lent.{LentEnd};
ghost use Rattle.board_hosts.specs.Client.{SeesNoLess};

use crate::board::Board;
use board_hosts::{BoardName, Host, Receipt};
use channel_locks::PartsName;
use channel_port::ChannelPort;
use energy_budget::Energy;
use notice_book::{Notices, Persisted};
use save_device::SaveDevice;
use std::sync::Wait;
use std::time::Clock;
use worker_turns::give_way;

/// Mains were lost while a write wasn't known to be persistent: the mark that was found behind the loss.
#[derive(Clone, Copy, Debug, PartialEq, Eq)]
pub struct MainsLost {
    pub mark: u64,
}

impl<K: ChannelPort, D: SaveDevice, E: Energy, B: BoardName + PartsName, N: Notices> Board<
    K,
    D,
    E,
    B,
    N,
> {
    /// Waits until a write is persistent: until a mark that is loaded anew is above its number. Between two looks it gives way, as a
    /// worker with nothing to do. A save or an arming raises the mark, and who waits begins neither: without both it waits until mains
    /// are lost. A loss of mains ends it, with the mark that was found behind the loss.
    pub fn await_persistent<R: Wait + Clock>(
        &self,
        rt: &R,
        host: &mut Host<B>,
        receipt: &Receipt,
    ) -> Result<Persisted, MainsLost>
        ensures number { IfOk result (λ p. p.number ≡ receipt.now.number) }
        ensures below { IfOk result (λ p. p.number < p.mark) }
        ensures mark { IfOk result (λ p. p.mark ≡ host.new.persisted) }
        ensures ended { IfErr result (λ _. LentEnd K.ChannelPort B.PartsName.own 0 true) }
        ensures found { IfErr result (λ lost. lost.mark ≡ host.new.persisted) }
        ensures behind { IfErr result (λ lost. lost.mark ≤ receipt.now.number) }
        ensures rises { SeesNoLess host.old host.new }
        ensures accepted { host.new.accepted ≡ host.old.accepted }
        ensures writes { host.new.writes ≡ host.old.writes }
        ensures delivered { host.new.delivered ≡ host.old.delivered }
    {
        let mut idle = 0;
        for _ in rt.forever() {
            // a mark that is loaded behind the loss is the last one
            let ended = self.channels.has_ended(rt);
            match host.check(receipt) {
                Ok(persisted) => return Ok(persisted),
                Err(behind) if ended => {
                    return Err(MainsLost { mark: behind.found });
                }
                Err(_) => idle = give_way(rt, idle),
            }
        }
        unreachable!()
    }
}
