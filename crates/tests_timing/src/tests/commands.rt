// Commands in short, and their text.
use crate::tests::check::same;
use ddr4_timing::command::{Command, Stamped};
use ddr4_timing::place::BankAddress;
use ddr4_timing::rules::Rule;
use ddr4_timing::timing::ProfileError;
use std::fmt::Display;
use std::process::Abort;

fn bank(rank: u64, group: u64, bank: u64) -> BankAddress {
    BankAddress { rank, group, bank }
}

// To row 0.
pub(crate) fn act(rank: u64, group: u64, number: u64) -> Command {
    let at = bank(rank, group, number);
    Command::Act { at, row: 0 }
}

// Of column 0, as the WR.
pub(crate) fn rd(rank: u64, group: u64, number: u64) -> Command {
    let at = bank(rank, group, number);
    Command::Rd { at, column: 0 }
}

pub(crate) fn wr(rank: u64, group: u64, number: u64) -> Command {
    let at = bank(rank, group, number);
    Command::Wr { at, column: 0 }
}

pub(crate) fn pre(rank: u64, group: u64, number: u64) -> Command {
    let at = bank(rank, group, number);
    Command::Pre { at }
}

pub(crate) fn at(clock: u64, cmd: Command) -> Stamped {
    Stamped { clock, cmd }
}

// Fails where a value isn't shown so.
fn is_shown<R: Abort + AllocGlobal, T: Display>(rt: &R, value: &T, text: &str) {
    let shown = value.to_string(rt.alloc()).expect(rt, "memory");
    same(rt, shown.as_str(), text);
}

const OPEN: Command = Command::Act {
    at: BankAddress {
        rank: 0,
        group: 1,
        bank: 2,
    },
    row: 3,
};

const READ: Command = Command::Rd {
    at: BankAddress {
        rank: 1,
        group: 0,
        bank: 3,
    },
    column: 2,
};

#[test]
fn shows_commands(rt: HostRuntime) {
    is_shown(&rt, &at(0, OPEN), "0 ACT 0 1 2 3");
    is_shown(&rt, &at(16, READ), "16 RD 1 0 3 2");
    is_shown(&rt, &at(22, wr(0, 0, 0)), "22 WR 0 0 0 0");
    is_shown(&rt, &at(56, pre(0, 0, 0)), "56 PRE 0 0 0");
    is_shown(&rt, &Command::PreAll { rank: 2 }, "PREA 2");
    is_shown(&rt, &Command::Ref { rank: 3 }, "REF 3");
    is_shown(&rt, &Command::Sre { rank: 0 }, "SRE 0");
}

#[test]
fn shows_refusals(rt: HostRuntime) {
    is_shown(&rt, &ProfileError::FawTooLong, "2 FawTooLong");
    is_shown(&rt, &Rule::Order, "1");
    is_shown(&rt, &Rule::Refi, "16");
    same(&rt, ProfileError::EntryTooLong as u8, 1);
    same(&rt, ProfileError::Overflow as u8, 4);
}
