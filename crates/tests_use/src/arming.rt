// Waits that end by arming, on a board without a saver.
ghost use Rattle.std.specs.Prelude.{◌≡◌};
ghost use Rattle.ddr4_boards.specs.Naming.{IsNamed};

use crate::check::{AMPLE, TIMES, fresh, same, tiny};
use channel_port::ChannelPort;
use notice_book::Notices;
use panguhero::{
    ArmRefusal, ArmReply, BoardName, Host, MainsLost, MemoryDevice, Meter, NoNotices, PartsName,
    Persisted, Profile, Ready, ReadyMap, Write, open,
};
use split_board::{Board, Started};
use std::alloc::Global;
use std::marker::Brand;
use std::process::Abort;
use std::sync::Wait;
use std::thread;
use std::thread::Threads;
use std::time::Clock;

// A host writes and waits, beside another thread that arms.
fn wait_beside<K, B, N, R>(rt: &R, board: &Board<K, MemoryDevice, Meter, B, N>, host: &mut Host<B>)
where
    K: ChannelPort + Drop + Send,
    B: BoardName + PartsName + Send + Sync,
    N: Notices + Send,
    R: Threads + Wait + Clock + Abort + Sync,
{
    let write = Write {
        line: 3,
        data: [5; 64],
    };
    let Ok(receipt) = board.write(rt, host, write) else {
        panic!(*rt; "a refusal");
    };
    let (told, armed) = thread::join(
        rt,
        || -> Result<Persisted, MainsLost> { board.await_persistent(rt, host, &receipt) },
        || -> Result<ArmReply, ArmRefusal> { board.arm(rt) },
    );
    same(rt, armed, Ok(ArmReply::Armed));
    same(rt, told, Ok(Persisted { number: 0, mark: 1 }));
}

// The same on a board of a module that has just begun.
fn arm_beside<K, B, R>(rt: &R, alloc: Global, ready: Ready<K, MemoryDevice, Meter>)
where
    K: ChannelPort + Drop + Send,
    B: BoardName + PartsName + Send + Sync,
    R: Threads + Wait + Clock + Abort + Sync,
    requires named { IsNamed K.ChannelPort B.Ledger B.BoardName.own B.PartsName.own
        ready.tables ready.recorded }
{
    let Ok(Started { board, mut hosts }) = ready.board::<B, NoNotices>(alloc, NoNotices) else {
        panic!(*rt; "memory");
    };
    for host in &mut hosts {
        wait_beside(rt, &board, host);
    }
}

// The same from a formatted device on.
fn wait_for_arming<R>(rt: &R, alloc: Global, profile: &Profile)
where
    R: Threads + Wait + Clock + Abort + Sync,
{
    let map = ReadyMap {
        interleaving: profile.map,
        checked: profile.checked,
    };
    let meter = Meter::with(AMPLE, 1);
    match open(
        rt,
        alloc,
        &map,
        profile,
        fresh(rt, alloc, profile),
        meter,
        1,
    ) {
        Ok(ready) => arm_beside::<_, Brand, R>(rt, alloc, ready),
        Err(_) => panic!(*rt; "not opened"),
    }
}

#[test]
fn waits_end_by_arming(rt: HostRuntime) {
    let profile = tiny(&rt, rt.alloc());
    for _ in 0..TIMES {
        wait_for_arming(&rt, rt.alloc(), &profile);
    }
}

#[test]
fn one_wait_ends_by_arming(rt: HostRuntime) {
    let profile = tiny(&rt, rt.alloc());
    wait_for_arming(&rt, rt.alloc(), &profile);
}
