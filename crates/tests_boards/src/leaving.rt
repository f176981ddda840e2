// What calls leave to the channels and to the gauge.
ghost use Rattle.std.specs.Prelude.{◌≡◌};
ghost use Rattle.ddr4_boards.specs.Naming.{IsNamed};

use crate::check::CHANNELS;
use crate::places::read_on;
use crate::quiet::{
    Left, PLACES, call_each, end_called, end_read, ends_with, read_and_write, refuse_once,
    write_line,
};
use crate::sleeping::watch_sleeps;
use crate::started::{HOSTS, started};
use board_hosts::BoardName;
use channel_locks::PartsName;
use channel_port::ChannelPort;
use ddr4_boards::Ready;
use energy_budget::Energy;
use save_device::SaveDevice;
use split_board::Started;
use std::alloc::Global;
use std::process::Abort;
use std::sync::Wait;
use std::time::Clock;

/// Calls of which is asked what they leave to the channels and to the gauge.
#[derive(Clone, Copy)]
pub(crate) enum Quiet {
    Called,
    Full,
    Crowded,
    Read,
    Refused,
    Places,
    Slept,
}

/// Tries such calls, and how many commands they left.
pub(crate) fn try_quiet<K, D, E, B, R>(rt: &R, alloc: Global, ready: Ready<K, D, E>, quiet: Quiet)
where
    K: ChannelPort + Drop,
    D: SaveDevice + Drop,
    E: Energy + Drop,
    B: BoardName + PartsName,
    R: Wait + Clock + Abort,
    requires named { IsNamed K.ChannelPort B.Ledger B.BoardName.own B.PartsName.own
        ready.tables ready.recorded }
    requires channels { CHANNELS ≡ B.channels }
    requires hosts { B.parts ≡ HOSTS }
{
    let Started { board, mut hosts } = started::<K, D, E, B, R>(rt, alloc, ready);
    let host = &mut hosts.as_mut_slice()[0];
    match quiet {
        Quiet::Called => call_each(rt, &board, host),
        Quiet::Full => write_line(rt, &board, host, PLACES),
        Quiet::Crowded => write_line(rt, &board, host, PLACES + 1),
        Quiet::Read => read_and_write(rt, &board, host),
        Quiet::Refused => refuse_once(rt, &board),
        Quiet::Places => read_on(rt, alloc, &board, host),
        Quiet::Slept => watch_sleeps(rt, &board, host),
    }
    if hosts.len() != HOSTS {
        panic!(*rt; "two hosts");
    }
    match quiet {
        Quiet::Called => end_called(rt, board, hosts),
        Quiet::Read => end_read(rt, board, hosts),
        Quiet::Full => ends_with(rt, board, hosts, Left { zero: 9, one: 0 }),
        Quiet::Crowded => ends_with(rt, board, hosts, Left { zero: 8, one: 0 }),
        Quiet::Refused | Quiet::Places | Quiet::Slept => {
            ends_with(rt, board, hosts, Left { zero: 0, one: 0 });
        }
    }
}
