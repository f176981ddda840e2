// The worked lists, and each rule at its edge.
use crate::tests::check::same;
use crate::tests::commands::{act, at, pre, rd, wr};
use ddr4_timing::command::{Command, Stamped};
use ddr4_timing::fault::{Fault, first_fault};
use ddr4_timing::place::BankAddress;
use ddr4_timing::profiles::{SMALL, TINY};
use ddr4_timing::rules::Rule;
use ddr4_timing::timing::{Checked, Geometry};
use std::process::Abort;

fn fault(first: usize, second: usize, rule: Rule) -> Option<Fault> {
    Some(Fault {
        first,
        second,
        rule,
    })
}

const REF: Command = Command::Ref { rank: 0 };

fn tiny<R: Abort>(rt: &R) -> Checked {
    TINY.check(&SMALL).expect(rt, "a profile")
}

// The list has this first fault.
fn has<R: Abort>(rt: &R, c: &Checked, list: &[Stamped], expected: Option<Fault>) {
    same(rt, first_fault(&c.rules(), list), expected);
}

#[test]
fn finds_first_faults(rt: HostRuntime) {
    let c = tiny(&rt);
    let row = at(0, act(0, 0, 0));
    let early = fault(0, 1, Rule::Rcd);
    has(&rt, &c, &[row, at(15, wr(0, 0, 0))], early);
    has(&rt, &c, &[row, at(16, wr(0, 0, 0))], None);
    let early = fault(0, 0, Rule::Refi);
    has(&rt, &c, &[at(9359, REF)], early);
    has(&rt, &c, &[at(9360, REF)], None);
    has(&rt, &c, &[at(84241, act(0, 0, 0))], early);
    has(&rt, &c, &[at(84240, act(0, 0, 0))], None);
}

// The last row of the last bank of the eighth rank.
const LAST_BANK: BankAddress = BankAddress {
    rank: 7,
    group: 3,
    bank: 3,
};

fn open_last(row: u64) -> Stamped {
    at(0, Command::Act { at: LAST_BANK, row })
}

fn read_last(clock: u64) -> Stamped {
    let column = 1023;
    at(
        clock,
        Command::Rd {
            at: LAST_BANK,
            column,
        },
    )
}

#[test]
fn the_last_bank_of_commands(rt: HostRuntime) {
    let devices = Geometry {
        ranks: 8,
        groups: 4,
        rows: 1 << 18,
        columns: 1 << 10,
        ..SMALL
    };
    let rules = TINY.check_commands(&devices).expect(&rt, "numbers");
    let last = (1 << 18) - 1;
    let early = [open_last(last), read_last(15)];
    same(&rt, first_fault(&rules, &early), fault(0, 1, Rule::Rcd));
    let ready = [open_last(last), read_last(16)];
    same(&rt, first_fault(&rules, &ready), None);
    let past = [open_last(last + 1)];
    same(&rt, first_fault(&rules, &past), fault(0, 0, Rule::Rows));
}

// The first fault of five rows, the last of them opened at this clock.
fn has_of_five<R: Abort>(rt: &R, clock: u64, expected: Option<Fault>) {
    let list = [
        at(0, act(0, 0, 0)),
        at(4, act(0, 1, 0)),
        at(8, act(0, 0, 1)),
        at(12, act(0, 1, 1)),
        at(clock, act(0, 0, 2)),
    ];
    has(rt, &tiny(rt), &list, expected);
}

#[test]
fn five_rows(rt: HostRuntime) {
    has_of_five(&rt, 25, fault(0, 4, Rule::Faw));
    has_of_five(&rt, 26, None);
}

#[test]
fn row_faults(rt: HostRuntime) {
    let c = tiny(&rt);
    let sleep = at(0, Command::Sre { rank: 0 });
    let all = at(0, Command::PreAll { rank: 0 });
    let outside = at(0, act(0, u64::MAX, u64::MAX));
    has(&rt, &c, &[at(0, rd(0, 0, 0))], fault(0, 0, Rule::Rows));
    has(&rt, &c, &[all], fault(0, 0, Rule::Rows));
    has(
        &rt,
        &c,
        &[sleep, at(1, act(0, 0, 0))],
        fault(1, 1, Rule::Rows),
    );
    has(&rt, &c, &[at(0, act(1, 0, 0))], fault(0, 0, Rule::Rows));
    has(&rt, &c, &[outside], fault(0, 0, Rule::Rows));
}

#[test]
fn clocks_of_any_size(rt: HostRuntime) {
    let c = tiny(&rt);
    let late = at(u64::MAX, act(0, 0, 0));
    let expected = fault(0, 0, Rule::Refi);
    has(&rt, &c, &[late], expected);
    has(&rt, &c, &[late, at(0, act(0, 0, 1))], expected);
    has(&rt, &c, &[at(1 << 63, REF)], expected);
    has(&rt, &c, &[], None);
}

// The first fault of a list with one more command behind it.
fn fault_with<R: Abort + AllocGlobal>(
    rt: &R,
    c: &Checked,
    before: &[Stamped],
    last: Stamped,
) -> Option<Fault> {
    let mut list = before.to_vec(rt.alloc()).expect(rt, "memory");
    list.push(last).expect(rt, "memory");
    first_fault(&c.rules(), &list)
}

// Behind the list a command at the clock breaks a rule, and breaks none one clock later.
fn breaks<R: Abort + AllocGlobal>(
    rt: &R,
    before: &[Stamped],
    clock: u64,
    cmd: Command,
    expected: Option<Fault>,
) {
    let c = TINY.check(&TWO_RANKS).expect(rt, "a profile");
    let early = fault_with(rt, &c, before, at(clock, cmd));
    same(rt, (clock, cmd, early), (clock, cmd, expected));
    let late = fault_with(rt, &c, before, at(clock.saturating_add(1), cmd));
    same(rt, (clock, cmd, late), (clock, cmd, None));
}

const TWO_RANKS: Geometry = Geometry { ranks: 2, ..SMALL };

#[test]
fn rows_at_their_edges(rt: HostRuntime) {
    let row = at(0, act(0, 0, 0));
    let closed = at(39, pre(0, 0, 0));
    let refreshed = at(9360, REF);
    breaks(&rt, &[row], 0, act(1, 0, 0), fault(0, 1, Rule::Order));
    breaks(&rt, &[row], 38, pre(0, 0, 0), fault(0, 1, Rule::Ras));
    breaks(&rt, &[row, closed], 54, act(0, 0, 0), fault(1, 2, Rule::Rp));
    breaks(&rt, &[row], 5, act(0, 0, 1), fault(0, 1, Rule::Rrd));
    breaks(&rt, &[row], 3, act(0, 1, 0), fault(0, 1, Rule::Rrd));
    breaks(
        &rt,
        &[refreshed],
        9779,
        act(0, 0, 0),
        fault(0, 1, Rule::Rfc),
    );
}

#[test]
fn columns_of_a_bank_at_their_edges(rt: HostRuntime) {
    let row = at(0, act(0, 0, 0));
    let late = at(40, rd(0, 0, 0));
    let read = at(16, rd(0, 0, 0));
    let write = at(16, wr(0, 0, 0));
    breaks(&rt, &[row, late], 48, pre(0, 0, 0), fault(1, 2, Rule::Rtp));
    breaks(&rt, &[row, write], 49, pre(0, 0, 0), fault(1, 2, Rule::Wr));
    breaks(&rt, &[row, read], 21, rd(0, 0, 0), fault(1, 2, Rule::Ccd));
    breaks(&rt, &[row, write], 40, rd(0, 0, 0), fault(1, 2, Rule::Wtr));
    breaks(&rt, &[row, read], 25, wr(0, 0, 0), fault(1, 2, Rule::Rtw));
}

#[test]
fn columns_of_two_banks_at_their_edges(rt: HostRuntime) {
    let row = at(0, act(0, 0, 0));
    let group = at(4, act(0, 1, 0));
    let other = at(1, act(1, 0, 0));
    let read = at(20, rd(0, 0, 0));
    let write = at(20, wr(0, 0, 0));
    let soon = at(17, rd(0, 0, 0));
    breaks(
        &rt,
        &[row, group, read],
        23,
        rd(0, 1, 0),
        fault(2, 3, Rule::Ccd),
    );
    breaks(
        &rt,
        &[row, group, write],
        38,
        rd(0, 1, 0),
        fault(2, 3, Rule::Wtr),
    );
    breaks(
        &rt,
        &[row, other, soon],
        22,
        rd(1, 0, 0),
        fault(2, 3, Rule::Cs),
    );
}
