// Boards that are used, and waits that end by a save and by a loss.
use crate::check::{AMPLE, TIMES, fresh, same, tiny};
use panguhero::{
    BoardEnd, BoardName, BoardUse, Energy, Host, HostEnd, Mains, MainsLost, Meter, MeteredBoard,
    PartsName, Persisted, Profile, Receipt, RestoreError, SaveDevice, Stranger, Unchecked, WhyNot,
    Write, WriteRefusal, with_board,
};
use save_device::Fuse;
use std::alloc::Global;
use std::process::Abort;
use std::sync::Wait;
use std::thread::Threads;
use std::time::Clock;

/// The calls of a device that a restore of the small profile takes, and some steps of a save: no save ends.
const CALLS: u64 = 9;

/// Each host writes a line and waits until it is persistent; the last one may lose the mains before.
#[derive(Drop)]
struct Waits {
    loses: bool,
    strange: bool,
}

/// What a host was told.
#[derive(Clone, Copy, Debug, PartialEq, Eq)]
enum Told {
    Waited(Result<Persisted, MainsLost>),
    Refused(WriteRefusal),
    Nothing,
}

impl<D: SaveDevice + Drop, E: Energy + Drop> BoardUse<D, E> for Waits {
    type Value = Told;

    fn host<'m, B, R>(
        &self,
        rt: &R,
        alloc: Global,
        board: &MeteredBoard<'m, B, D, E>,
        mains: &Mains,
        host: &mut Host<B>,
        seat: usize,
    ) -> HostEnd<Told>
    where
        B: BoardName + PartsName,
        R: Wait + Clock,
    {
        let mut end = HostEnd::unchecked(alloc, Told::Nothing);
        let data = [(seat % 256) as u8; 64];
        let line = seat as u64;
        if self.loses && seat == 1 {
            mains.lose(rt);
        }
        match board.write(rt, host, Write { line, data }) {
            Ok(receipt) => {
                let number = receipt.number ^ u64::from(self.strange);
                if end.receipts.push(Receipt { number, ..receipt }).is_ok() {
                    end.value = Told::Waited(board.await_persistent(rt, host, &receipt));
                }
            }
            Err(why) => end.value = Told::Refused(why),
        }
        end
    }
}

// Whether a host was told what its end says, and not nothing.
fn is_told_well(told: Told) -> bool {
    match told {
        Told::Waited(Ok(Persisted { number, mark })) => number < mark,
        Told::Waited(Err(_)) | Told::Refused(_) | Told::Nothing => false,
    }
}

// What a host was told.
fn told_by<D, E>(end: &BoardEnd<D, E, Told>, seat: usize) -> Told {
    match end.hosts.get(seat) {
        Some(host) => host.value,
        None => Told::Nothing,
    }
}

// Uses a board of two hosts. Where a thread was refused that is named, and there is no end.
fn used<D, R>(
    rt: &R,
    alloc: Global,
    profile: &Profile,
    device: D,
    waits: &Waits,
) -> Option<BoardEnd<D, Meter, Told>>
where
    D: SaveDevice + Drop + Send,
    R: Threads + Wait + Clock + Abort + Sync,
{
    match with_board(rt, alloc, profile, device, Meter::with(AMPLE, 1), 2, waits) {
        Ok(end) => Some(end),
        Err(left) => {
            same(rt, left.why, WhyNot::Thread);
            None
        }
    }
}

// A save ends both waits, and the mark is that of the saved writes.
fn wait_for_a_save<R>(rt: &R, alloc: Global, profile: &Profile)
where
    R: Threads + Wait + Clock + Abort + Sync,
{
    let waits = Waits {
        loses: false,
        strange: false,
    };
    let device = fresh(rt, alloc, profile);
    if let Some(end) = used(rt, alloc, profile, device, &waits) {
        same(rt, end.hosts.len(), 2);
        for host in &end.hosts {
            same(rt, is_told_well(host.value), true);
        }
        same(rt, (end.life.accepted, end.life.mark), (2, 2));
        same(rt, end.life.checked.is_ok(), true);
    }
}

// A loss ends the wait, on a device on which no save ends, and behind it the board refuses a write.
fn wait_for_a_loss<R>(rt: &R, alloc: Global, profile: &Profile)
where
    R: Threads + Wait + Clock + Abort + Sync,
{
    let waits = Waits {
        loses: true,
        strange: false,
    };
    let device = Fuse::new(fresh(rt, alloc, profile), CALLS);
    if let Some(end) = used(rt, alloc, profile, device, &waits) {
        same(rt, end.life.mark, 0);
        let told = match end.life.accepted {
            0 => Told::Refused(WriteRefusal::Closed),
            _ => Told::Waited(Err(MainsLost { mark: 0 })),
        };
        same(rt, told_by(&end, 0), told);
        same(rt, told_by(&end, 1), Told::Refused(WriteRefusal::Closed));
        same(rt, end.loss.is_some(), true);
    }
}

#[test]
fn waits_end_by_a_save(rt: HostRuntime) {
    let profile = tiny(&rt, rt.alloc());
    for _ in 0..TIMES {
        wait_for_a_save(&rt, rt.alloc(), &profile);
    }
}

#[test]
fn waits_end_by_a_loss(rt: HostRuntime) {
    let profile = tiny(&rt, rt.alloc());
    for _ in 0..TIMES {
        wait_for_a_loss(&rt, rt.alloc(), &profile);
    }
}

#[test]
fn one_wait_ends_by_a_loss(rt: HostRuntime) {
    let profile = tiny(&rt, rt.alloc());
    wait_for_a_loss(&rt, rt.alloc(), &profile);
}

#[test]
fn a_stranger_is_named_and_the_board_ends(rt: HostRuntime) {
    let profile = tiny(&rt, rt.alloc());
    let waits = Waits {
        loses: false,
        strange: true,
    };
    let device = fresh(&rt, rt.alloc(), &profile);
    if let Some(end) = used(&rt, rt.alloc(), &profile, device, &waits) {
        let stranger = Stranger {
            answer: false,
            index: 0,
        };
        same(
            &rt,
            end.life.checked.err(),
            Some(Unchecked::Stranger(stranger)),
        );
        same(&rt, end.life.mark, 2);
    }
}

#[test]
fn a_device_without_an_image_comes_back(rt: HostRuntime) {
    let profile = tiny(&rt, rt.alloc());
    let device = Fuse::new(fresh(&rt, rt.alloc(), &profile), 0);
    let meter = Meter::with(AMPLE, 1);
    let waits = Waits {
        loses: false,
        strange: false,
    };
    match with_board(&rt, rt.alloc(), &profile, device, meter, 2, &waits) {
        Ok(_) => panic!(rt; "opened"),
        Err(left) => {
            same(&rt, left.why, WhyNot::NotOpened(RestoreError::Device));
            let mut back = left.device;
            back.left = u64::MAX;
            let Some(end) = used(&rt, rt.alloc(), &profile, back, &waits) else {
                return;
            };
            same(&rt, end.life.accepted, 2);
        }
    }
}
