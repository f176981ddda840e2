// The cases, each on a board over the channels of the small profile, from a formatted device on.
ghost use Rattle.std.specs.Prelude.{◌≡◌, ℕ};
ghost use Rattle.ddr4_boards.specs.Naming.{IsNamed};

use crate::alone::{
    end_workers, lose_armed, lose_by_a_gate, lose_disarmed, save_by_hand, work_by_turns,
    write_disarmed,
};
use crate::check::{AMPLE, CHANNELS, opened, tiny};
use crate::claims::{end_seen, wait_side_by_side};
use crate::cuts::{
    cut_behind_saves, cut_beside_strangers, cut_in_each_mode, end_behind_cuts, end_cut_off,
};
use crate::ends::ends_at;
use crate::leaving::{Quiet, try_quiet};
use crate::quiet::LITTLE;
use crate::started::{HOSTS, started};
use crate::strangers::{end_armed, end_with_strangers, write_armed};
use board_hosts::BoardName;
use channel_locks::PartsName;
use channel_port::ChannelPort;
use ddr4_boards::Ready;
use energy_budget::Energy;
use interleave_map::{Interleaving, ReadyMap};
use notice_book::{Notice, NoticeBook, Notices, Persisted};
use nv_profile::{ModuleSizes, Profile};
use save_device::SaveDevice;
use split_board::Started;
use std::alloc::Global;
use std::marker::Brand;
use std::process::Abort;
use std::sync::Wait;
use std::thread::Threads;
use std::time::Clock;

/// Calls behind which the write of line 0 is the one that was accepted.
#[derive(Clone, Copy)]
enum Calls {
    Armed,
    Gated,
    Modes,
    Turns,
    Workers,
}

/// Calls with an end of their own.
#[derive(Clone, Copy)]
enum Ends {
    Strange,
    Waits,
    Lost,
}

/// Cuts of a board with room for two writes.
#[derive(Clone, Copy)]
enum Cuts {
    BehindSaves,
    Modes,
    Strange,
}

/// What is tried of a board.
#[derive(Clone, Copy)]
enum Case {
    Notice,
    Called(Calls),
    Ended(Ends),
    Cut(Cuts),
    Quiet(Quiet),
}

// Tries a write with a notice.
fn try_notice<K, D, E, B, N, R>(
    rt: &R,
    alloc: Global,
    ready: Ready<K, D, E>,
    notices: N,
    notice: N::Notice,
)
where
    K: ChannelPort + Drop,
    D: SaveDevice + Drop,
    E: Energy + Drop,
    B: BoardName + PartsName,
    N: Notices + Drop,
    N::Notice: Drop,
    R: Wait + Clock + Abort,
    requires notice { (number : ℕ) → N.is_callable number notice }
    requires named { IsNamed K.ChannelPort B.Ledger B.BoardName.own B.PartsName.own
        ready.tables ready.recorded }
    requires channels { CHANNELS ≡ B.channels }
    requires hosts { B.parts ≡ HOSTS }
{
    let Ok(Started { board, mut hosts }) = ready.board::<B, N>(alloc, notices) else {
        panic!(*rt; "memory");
    };
    let (first, rest) = hosts.as_mut_slice().split_at_mut(1);
    write_disarmed(rt, alloc, &board, &mut first[0], &mut rest[0], notice);
    if hosts.len() != HOSTS {
        panic!(*rt; "two hosts");
    }
    end_with_strangers(rt, board, hosts);
}

// Tries such calls.
fn try_calls<K, D, E, B, R>(rt: &R, alloc: Global, ready: Ready<K, D, E>, calls: Calls)
where
    K: ChannelPort + Drop + Send,
    D: SaveDevice + Drop,
    E: Energy + Drop,
    B: BoardName + PartsName + Send,
    R: Threads + Wait + Clock + Abort + Sync,
    requires named { IsNamed K.ChannelPort B.Ledger B.BoardName.own B.PartsName.own
        ready.tables ready.recorded }
    requires channels { CHANNELS ≡ B.channels }
    requires hosts { B.parts ≡ HOSTS }
{
    let Started { board, mut hosts } = started::<K, D, E, B, R>(rt, alloc, ready);
    let host = &mut hosts.as_mut_slice()[0];
    match calls {
        Calls::Armed => lose_armed(rt, &board, host),
        Calls::Gated => lose_by_a_gate(rt, &board, host),
        Calls::Modes => save_by_hand(rt, &board, host),
        Calls::Turns => work_by_turns(rt, &board, host),
        Calls::Workers => end_workers(rt, &board, host),
    }
    if hosts.len() != HOSTS {
        panic!(*rt; "two hosts");
    }
    end_with_strangers(rt, board, hosts);
}

// Tries such an end.
fn try_ends<K, D, E, B, R>(rt: &R, alloc: Global, ready: Ready<K, D, E>, ends: Ends)
where
    K: ChannelPort + Drop + Send,
    D: SaveDevice + Drop,
    E: Energy + Drop,
    B: BoardName + PartsName + Send,
    R: Threads + Wait + Clock + Abort + Sync,
    requires named { IsNamed K.ChannelPort B.Ledger B.BoardName.own B.PartsName.own
        ready.tables ready.recorded }
    requires channels { CHANNELS ≡ B.channels }
    requires hosts { B.parts ≡ HOSTS }
{
    let Started { board, mut hosts } = started::<K, D, E, B, R>(rt, alloc, ready);
    let (first, rest) = hosts.as_mut_slice().split_at_mut(1);
    match ends {
        Ends::Strange => write_armed(rt, &board, &mut first[0]),
        Ends::Waits => wait_side_by_side(rt, &board, &mut first[0], &mut rest[0]),
        Ends::Lost => lose_disarmed(rt, &board),
    }
    if hosts.len() != HOSTS {
        panic!(*rt; "two hosts");
    }
    match ends {
        Ends::Strange => end_armed(rt, board, hosts),
        Ends::Waits => end_seen(rt, board, hosts),
        Ends::Lost => ends_at(rt, board, hosts, AMPLE - 1),
    }
}

// Tries such cuts.
fn try_cuts<K, D, E, B, R>(rt: &R, alloc: Global, ready: Ready<K, D, E>, cuts: Cuts)
where
    K: ChannelPort + Drop + Send,
    D: SaveDevice + Drop,
    E: Energy + Drop,
    B: BoardName + PartsName + Send,
    R: Threads + Wait + Clock + Abort + Sync,
    requires named { IsNamed K.ChannelPort B.Ledger B.BoardName.own B.PartsName.own
        ready.tables ready.recorded }
    requires channels { CHANNELS ≡ B.channels }
    requires hosts { B.parts ≡ HOSTS }
{
    let Started { board, mut hosts } = started::<K, D, E, B, R>(rt, alloc, ready);
    let host = &mut hosts.as_mut_slice()[0];
    match cuts {
        Cuts::BehindSaves => cut_behind_saves(rt, &board, host),
        Cuts::Modes => cut_in_each_mode(rt, &board, host),
        Cuts::Strange => cut_beside_strangers(rt, &board, host),
    }
    if hosts.len() != HOSTS {
        panic!(*rt; "two hosts");
    }
    match cuts {
        Cuts::BehindSaves => end_behind_cuts(rt, board, hosts),
        Cuts::Modes | Cuts::Strange => end_cut_off(rt, board, hosts),
    }
}

// Tries a case on a board of this module.
fn try_board<K, D, E, B, R>(rt: &R, alloc: Global, ready: Ready<K, D, E>, case: Case)
where
    K: ChannelPort + Drop + Send,
    D: SaveDevice + Drop,
    E: Energy + Drop,
    B: BoardName + PartsName + Send,
    R: Threads + Wait + Clock + Abort + Sync,
    requires named { IsNamed K.ChannelPort B.Ledger B.BoardName.own B.PartsName.own
        ready.tables ready.recorded }
    requires number { ready.channels ≡ B.channels }
    requires channels { ready.channels ≡ CHANNELS }
    requires hosts { B.parts ≡ HOSTS }
{
    match case {
        Case::Notice => {
            let book = NoticeBook::with_room(alloc, 2).expect(rt, "memory");
            let notice: Notice = Box::new(alloc, |told: Persisted| told.mark).expect(rt, "memory");
            try_notice::<K, D, E, B, NoticeBook, R>(rt, alloc, ready, book, notice);
        }
        Case::Called(calls) => try_calls::<K, D, E, B, R>(rt, alloc, ready, calls),
        Case::Ended(ends) => try_ends::<K, D, E, B, R>(rt, alloc, ready, ends),
        Case::Cut(cuts) => try_cuts::<K, D, E, B, R>(rt, alloc, ready, cuts),
        Case::Quiet(quiet) => try_quiet::<K, D, E, B, R>(rt, alloc, ready, quiet),
    }
}

// A profile with room for two writes in a record.
fn with_room_for_two(profile: Profile) -> Profile {
    Profile {
        checked: profile.checked,
        costs: profile.costs,
        sizes: ModuleSizes {
            depth: 8,
            reads: 8,
            trail: 2,
            notices: 2,
            retries: 0,
        },
        map: profile.map,
    }
}

// The profile of a case.
fn profile_for<R: Abort>(rt: &R, alloc: Global, case: Case) -> Profile {
    let profile = tiny(rt, alloc);
    match case {
        Case::Cut(_) => with_room_for_two(profile),
        _ => profile,
    }
}

// Tries a case on a board over the map `lines` of its profile.
fn try_case<R>(rt: &R, alloc: Global, case: Case)
where
    R: Threads + Wait + Clock + Abort + Sync,
{
    let profile = profile_for(rt, alloc, case);
    let map = ReadyMap {
        interleaving: Interleaving::Lines,
        checked: profile.checked,
    };
    let level = match case {
        Case::Quiet(Quiet::Refused) => LITTLE,
        _ => AMPLE,
    };
    let ready = opened(rt, alloc, &map, &profile, level, HOSTS);
    try_board::<_, _, _, Brand, R>(rt, alloc, ready, case);
}

#[test]
fn a_disarmed_write_and_its_notice(rt: HostRuntime) {
    try_case(&rt, rt.alloc(), Case::Notice);
}

#[test]
fn an_armed_write_and_a_loss(rt: HostRuntime) {
    try_case(&rt, rt.alloc(), Case::Called(Calls::Armed));
}

#[test]
fn a_loss_asks_its_gate_for_each_channel(rt: HostRuntime) {
    try_case(&rt, rt.alloc(), Case::Called(Calls::Gated));
}

#[test]
fn saves_by_hand_and_by_the_saver(rt: HostRuntime) {
    try_case(&rt, rt.alloc(), Case::Called(Calls::Modes));
}

#[test]
fn a_go_is_one_command(rt: HostRuntime) {
    try_case(&rt, rt.alloc(), Case::Called(Calls::Turns));
}

#[test]
fn workers_end(rt: HostRuntime) {
    try_case(&rt, rt.alloc(), Case::Called(Calls::Workers));
}

#[test]
fn a_stranger_leaves_the_board(rt: HostRuntime) {
    try_case(&rt, rt.alloc(), Case::Ended(Ends::Strange));
}

#[test]
fn two_hosts_wait_on_one_channel(rt: HostRuntime) {
    try_case(&rt, rt.alloc(), Case::Ended(Ends::Waits));
}

#[test]
fn a_loss_while_disarmed_reads_no_gauge(rt: HostRuntime) {
    try_case(&rt, rt.alloc(), Case::Ended(Ends::Lost));
}

#[test]
fn ten_saves_in_the_room_of_two(rt: HostRuntime) {
    try_case(&rt, rt.alloc(), Case::Cut(Cuts::BehindSaves));
}

#[test]
fn a_cut_in_each_mode(rt: HostRuntime) {
    try_case(&rt, rt.alloc(), Case::Cut(Cuts::Modes));
}

#[test]
fn strangers_stop_a_cut(rt: HostRuntime) {
    try_case(&rt, rt.alloc(), Case::Cut(Cuts::Strange));
}

#[test]
fn calls_issue_no_command(rt: HostRuntime) {
    try_case(&rt, rt.alloc(), Case::Quiet(Quiet::Called));
}

#[test]
fn writes_into_room_issue_no_command(rt: HostRuntime) {
    try_case(&rt, rt.alloc(), Case::Quiet(Quiet::Full));
}

#[test]
fn a_write_makes_room_for_one(rt: HostRuntime) {
    try_case(&rt, rt.alloc(), Case::Quiet(Quiet::Crowded));
}

#[test]
fn a_read_is_asked_once(rt: HostRuntime) {
    try_case(&rt, rt.alloc(), Case::Quiet(Quiet::Read));
}

#[test]
fn a_refused_arming_reads_the_gauge_once(rt: HostRuntime) {
    try_case(&rt, rt.alloc(), Case::Quiet(Quiet::Refused));
}

#[test]
fn each_read_has_one_place(rt: HostRuntime) {
    try_case(&rt, rt.alloc(), Case::Quiet(Quiet::Places));
}

#[test]
fn no_lock_is_held_while_a_worker_sleeps(rt: HostRuntime) {
    try_case(&rt, rt.alloc(), Case::Quiet(Quiet::Slept));
}
