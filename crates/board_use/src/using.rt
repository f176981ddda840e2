// A board that is used.
ghost use Rattle.std.specs.Prelude.{◌≡◌, vec_len, IfErr, IfOk};
ghost use Rattle.ddr4_timing.specs.Limits.{lines_of};
ghost use Rattle.slot_store.specs.Outcomes.{restored};
ghost use Rattle.ddr4_boards.specs.Naming.{IsNamed};
ghost use Rattle.board_use.specs.Ends.{EndsLife, EndsLifeOn, LeavesBoard, LeavesUnused, answers_of, receipts_of, shape_beside};

use crate::ending::{BoardEnd, close_checked};
use crate::hosting::BoardUse;
use crate::no_notices::NoNotices;
use crate::threads::{Joined, Room, run};
use board_hosts::{BoardName, NotStarted, RecordedModule};
use channel_locks::PartsName;
use channel_port::ChannelPort;
use ddr4_boards::{NotOpened, Ready, open};
use ddr4_port::Ddr4Port;
use energy_budget::Energy;
use interleave_map::ReadyMap;
use notice_book::Notices;
use nv_profile::Profile;
use save_device::SaveDevice;
use slot_store::RestoreError;
use split_board::{Started, start};
use std::alloc::Global;
use std::marker::Brand;
use std::sync::Wait;
use std::thread::Threads;
use std::time::Clock;
use thiserror::Error;

/// Why a board wasn't used.
#[derive(Clone, Copy, Debug, PartialEq, Eq, Error)]
pub enum WhyNot {
    /// The device holds no module of the profile, or there was no memory for it.
    #[error("the device can't be opened: {0}")]
    NotOpened(RestoreError),
    /// There was no memory for the board or its hosts.
    #[error("there is no memory for the board")]
    Memory,
    /// A thread was refused: no host has begun.
    #[error("a thread was refused")]
    Thread,
}

/// The device and the gauge that a board was to have, and why it wasn't used.
#[derive(Drop)]
pub struct NotUsed<D, E> {
    pub why: WhyNot,
    pub device: D,
    pub energy: E,
}

// There was no memory for the board of a module.
fn no_memory<K, D, E>(recorded: RecordedModule<K, D, E>) -> NotUsed<D, E>
where
    K: ChannelPort + Drop,
    D: SaveDevice + Drop,
    E: Energy + Drop,
    ensures why { result.why ≡ WhyNot.Memory }
    ensures device { result.device ≡ recorded.device }
    ensures energy { result.energy ≡ recorded.energy }
{
    NotUsed {
        why: WhyNot::Memory,
        device: recorded.device,
        energy: recorded.energy,
    }
}

// A board of a module that has just begun, used and ended.
fn use_ready<'m, D, E, U, B, R>(
    rt: &R,
    alloc: Global,
    ready: Ready<Ddr4Port<'m, ReadyMap>, D, E>,
    hosts: usize,
    uses: &U,
) -> Result<BoardEnd<D, E, U::Value>, NotUsed<D, E>>
where
    D: SaveDevice + Drop + Send,
    E: Energy + Drop + Send,
    U: BoardUse<D, E> + Sync,
    U::Value: Send + Drop,
    B: BoardName + PartsName + Send + Sync,
    R: Threads + Wait + Clock + Sync,
    requires named { IsNamed ⟦<Ddr4Port<'m, ReadyMap> as ChannelPort>⟧ B.Ledger B.BoardName.own
        B.PartsName.own ready.tables ready.recorded }
    requires hosts { B.parts ≡ hosts }
    ensures seats { IfOk result (λ end. vec_len end.hosts ≡ hosts) }
    ensures used { IfOk result (λ end. ∥ (EndsLife D.SaveDevice E.Energy
        (shape_beside ⟦<Ddr4Port<'m, ReadyMap> as ChannelPort>⟧ ready.entry.recorded)
        ready.entry.recorded.history.base
        (receipts_of end.hosts.items) (answers_of end.hosts.items) end.life) ∥₁) }
    ensures unused { IfErr result (λ left. LeavesBoard D.SaveDevice E.Energy
        (shape_beside ⟦<Ddr4Port<'m, ReadyMap> as ChannelPort>⟧ ready.entry.recorded)
        ready.entry.recorded.history.base ready.entry.recorded.device ready.entry.recorded.energy
        left left.why) }
{
    let channels = ready.channels;
    let Ok(room) = Room::for_hosts(alloc, hosts) else {
        return Err(no_memory(ready.recorded));
    };
    match ready.board::<B, NoNotices>(alloc, NoNotices) {
        Ok(
            Started {
                board,
                hosts: named,
            },
        ) => {
            let Joined {
                hosts: back,
                ends,
                loss,
                refused,
            } = run(rt, alloc, &board, channels, named, uses, room);
            let life = close_checked(alloc, board, back, ends.as_slice());
            if refused || ends.len() != hosts {
                return Err(NotUsed {
                    why: WhyNot::Thread,
                    device: life.device,
                    energy: life.energy,
                });
            }
            Ok(BoardEnd {
                hosts: ends,
                loss,
                life,
            })
        }
        Err(left) => Err(no_memory(left.recorded)),
    }
}

/// Opens a board of a profile on the image of a device, uses it and ends it. It makes the board's name, a worker for each channel, a
/// saver and so many hosts, each in a thread of its own; it has what `uses` says done by the hosts, joins all threads, checks the
/// receipts and the answers that are to be checked, and closes the board. The map is the profile's.
///
/// Refused where the device can't be opened, where there is no memory, or where a thread is refused: no host has begun then, and
/// device and gauge are given back. Where a receipt is a stranger the board ends all the same, and says so.
pub fn with_board<D, E, U, R>(
    rt: &R,
    alloc: Global,
    profile: &Profile,
    device: D,
    energy: E,
    hosts: usize,
    uses: &U,
) -> Result<BoardEnd<D, E, U::Value>, NotUsed<D, E>>
where
    D: SaveDevice + Drop + Send,
    E: Energy + Drop + Send,
    U: BoardUse<D, E> + Sync,
    U::Value: Send + Drop,
    R: Threads + Wait + Clock + Sync,
    ensures seats { IfOk result (λ end. vec_len end.hosts ≡ hosts) }
    ensures used { IfOk result (λ end. EndsLifeOn D.SaveDevice E.Energy
        (restored (lines_of profile.now.checked.geometry) (D.state device).bytes) profile.now
        (receipts_of end.hosts.items) (answers_of end.hosts.items) end.life) }
    ensures unused { IfErr result (λ left. LeavesUnused D.SaveDevice E.Energy
        (restored (lines_of profile.now.checked.geometry) (D.state device).bytes) profile.now
        device energy left left.why) }
{
    let map = ReadyMap {
        interleaving: profile.map,
        checked: profile.checked,
    };
    match open(rt, alloc, &map, profile, device, energy, hosts) {
        Ok(ready) => use_ready::<D, E, U, Brand, R>(rt, alloc, ready, hosts, uses),
        Err(
            NotOpened {
                why,
                device,
                energy,
            },
        ) => Err(NotUsed {
            why: WhyNot::NotOpened(why),
            device,
            energy,
        }),
    }
}
