// The cases, each on a board over the channels of the small profile, from a formatted device on.
ghost use Rattle.std.specs.Prelude.{◌≡◌};
ghost use Rattle.ddr4_boards.specs.Naming.{IsNamed};

use crate::amid::lose_beside_held;
use crate::check::{AMPLE, CHANNELS, opened, tiny};
use crate::locks::{call_behind_held, call_beside_held, crowd_one_channel, hold_inside};
use crate::orders::wait_in_order;
use crate::silent::Silent;
use crate::together::{lose_threads, read_beside_held, work_apart};
use crate::waits::wait_for_marks;
use board_hosts::BoardName;
use channel_locks::PartsName;
use channel_port::ChannelPort;
use ddr4_boards::Ready;
use energy_budget::Energy;
use interleave_map::{Interleaving, ReadyMap};
use save_device::SaveDevice;
use split_board::Started;
use std::alloc::Global;
use std::marker::Brand;
use std::process::Abort;
use std::sync::Wait;
use std::thread::Threads;
use std::time::Clock;

/// How many hosts a board has.
const HOSTS: usize = 12;

/// What is tried of a board.
#[derive(Clone, Copy)]
enum Case {
    Apart,
    Parted,
    Held,
    Marks,
    Beside,
    Behind,
    Never,
    Crowded,
    Lost,
    Order,
}

// Tries a case on a board of this name.
fn try_named<K, D, E, B, R>(rt: &R, alloc: Global, ready: Ready<K, D, E>, case: Case)
where
    K: ChannelPort + Drop + Send,
    D: SaveDevice + Drop + Send,
    E: Energy + Drop + Send,
    B: BoardName + PartsName + Send + Sync,
    R: Threads + Wait + Clock + Abort + Copy + Send + Sync,
    requires named { IsNamed K.ChannelPort B.Ledger B.BoardName.own B.PartsName.own
        ready.tables ready.recorded }
    requires channels { CHANNELS ≡ B.channels }
{
    let Ok(Started { board, mut hosts }) = ready.board::<B, Silent>(alloc, Silent) else {
        panic!(*rt; "memory");
    };
    let mut host = hosts.pop().expect(rt, "a host");
    match case {
        Case::Apart => work_apart(rt, &board, host),
        Case::Parted => lose_threads(rt, &board, host),
        Case::Held => read_beside_held(rt, &board, host),
        Case::Marks => wait_for_marks(rt, &board, host),
        Case::Beside => call_beside_held(rt, &board, host),
        Case::Behind => call_behind_held(rt, &board, host),
        Case::Never => hold_inside(rt, &board),
        Case::Crowded => crowd_one_channel(rt, alloc, &board, hosts),
        Case::Lost => lose_beside_held(rt, &board, &mut host),
        Case::Order => wait_in_order(rt, &board, host),
    }
}

// Tries a case on a board of this module.
fn try_board<K, D, E, B, R>(rt: &R, alloc: Global, ready: Ready<K, D, E>, case: Case)
where
    K: ChannelPort + Drop + Send,
    D: SaveDevice + Drop + Send,
    E: Energy + Drop + Send,
    B: BoardName + PartsName + Send + Sync,
    R: Threads + Wait + Clock + Abort + Copy + Send + Sync,
    requires named { IsNamed K.ChannelPort B.Ledger B.BoardName.own B.PartsName.own
        ready.tables ready.recorded }
    requires number { ready.channels ≡ B.channels }
    requires channels { ready.channels ≡ CHANNELS }
{
    try_named::<K, D, E, B, R>(rt, alloc, ready, case);
}

// Tries a case on a board over the map `lines` of the small profile.
fn try_case<R>(rt: &R, alloc: Global, case: Case)
where
    R: Threads + Wait + Clock + Abort + Copy + Send + Sync,
{
    let profile = tiny(rt, alloc);
    let map = ReadyMap {
        interleaving: Interleaving::Lines,
        checked: profile.checked,
    };
    let ready = opened(rt, alloc, &map, &profile, AMPLE, HOSTS);
    try_board::<_, _, _, Brand, R>(rt, alloc, ready, case);
}

#[test]
fn channels_are_worked_apart(rt: HostRuntime) {
    try_case(&rt, rt.alloc(), Case::Apart);
}

#[test]
fn a_loss_ends_what_waits(rt: HostRuntime) {
    try_case(&rt, rt.alloc(), Case::Parted);
}

#[test]
fn a_read_is_served_while_workers_are_held(rt: HostRuntime) {
    try_case(&rt, rt.alloc(), Case::Held);
}

#[test]
fn waits_end_by_a_save_and_by_a_loss(rt: HostRuntime) {
    try_case(&rt, rt.alloc(), Case::Marks);
}

#[test]
fn a_channel_answers_while_another_is_held(rt: HostRuntime) {
    try_case(&rt, rt.alloc(), Case::Beside);
}

#[test]
fn a_write_waits_for_a_worker_that_holds_its_channel(rt: HostRuntime) {
    try_case(&rt, rt.alloc(), Case::Behind);
}

#[test]
fn a_worker_that_is_held_inside_ends(rt: HostRuntime) {
    try_case(&rt, rt.alloc(), Case::Never);
}

#[test]
fn hosts_crowd_one_channel(rt: HostRuntime) {
    try_case(&rt, rt.alloc(), Case::Crowded);
}

#[test]
fn a_loss_waits_for_workers_that_hold_their_channels(rt: HostRuntime) {
    try_case(&rt, rt.alloc(), Case::Lost);
}

#[test]
fn who_waits_for_a_lock_holds_none_behind_it(rt: HostRuntime) {
    try_case(&rt, rt.alloc(), Case::Order);
}
