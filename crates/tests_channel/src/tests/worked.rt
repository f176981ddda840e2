// Worked drains on the small profile.
use crate::tests::check::same;
use crate::tests::profiles::{FOUR_RANKS, behind, text};
use crate::tests::run::{Drained, Run};
use chan_core::Phase;
use ddr4_timing::command::Command;
use ddr4_timing::place::{BankAddress, Place};
use ddr4_timing::profiles::{SMALL, TINY};
use drain_core::DrainReport;
use std::process::Abort;

// A channel with these writes, each to a line that its number picks.
fn with_writes<R: Abort + AllocGlobal>(rt: &R, writes: &[(u64, u8)]) -> Run {
    let mut run = Run::new(rt, &TINY, &SMALL, 7, 1);
    for (pick, byte) in writes {
        same(rt, run.put(rt, *pick, *byte), true);
    }
    run
}

// The commands of a drain read so, and it took so many clocks and spent so much.
fn was<R: Abort + AllocGlobal>(rt: &R, drained: &Drained, expected: &str, clocks: u64, spent: u64) {
    same(rt, text(rt, &drained.commands).as_str(), expected);
    same(rt, drained.report, DrainReport { clocks, spent });
}

#[test]
fn a_drain_of_no_write(rt: HostRuntime) {
    let mut run = with_writes(&rt, &[]);
    let drained = run.drain(&rt);
    was(&rt, &drained, "0 SRE 0\n", 1, 2);
    same(&rt, run.fixture.channel().phase(), Phase::Asleep);
}

#[test]
fn a_drain_of_one_write(rt: HostRuntime) {
    let mut run = with_writes(&rt, &[(0, 0x11)]);
    let drained = run.drain(&rt);
    let expected = "0 ACT 0 0 0 0\n16 WR 0 0 0 0\n50 PRE 0 0 0\n66 SRE 0\n";
    was(&rt, &drained, expected, 67, 75);
    same(&rt, run.fixture.stored(&rt, 0), [0x11; 64]);
}

#[test]
fn a_drain_of_two_writes_of_one_row(rt: HostRuntime) {
    let mut run = with_writes(&rt, &[(0, 0x11), (1, 0x22)]);
    let drained = run.drain(&rt);
    let expected =
        "0 ACT 0 0 0 0\n16 WR 0 0 0 0\n50 PRE 0 0 0\n66 ACT 0 0 0 0\n82 WR 0 0 0 1\n116 PRE 0 0 0\n132 SRE 0\n";
    was(&rt, &drained, expected, 133, 148);
}

// Held writes are drained too, and of two writes of one line the younger one stays.
#[test]
fn a_drain_of_held_writes_of_one_line(rt: HostRuntime) {
    let mut run = with_writes(&rt, &[]);
    run.fixture.hold_from(0);
    same(&rt, run.put(&rt, 0, 0x11), true);
    same(&rt, run.put(&rt, 0, 0x22), true);
    same(&rt, run.step(&rt), None);
    let drained = run.drain(&rt);
    same(&rt, drained.report.clocks, 133);
    same(&rt, run.fixture.stored(&rt, 0), [0x22; 64]);
}

const FIRST_BANK: BankAddress = BankAddress {
    rank: 0,
    group: 0,
    bank: 0,
};

// The commands of a drain of one write of row 0 of the first bank, with a REF before; each behind the drain's start.
const ONE_REFRESHED: [(u64, Command); 6] = [
    (33, Command::PreAll { rank: 0 }),
    (49, Command::Ref { rank: 0 }),
    (
        49 + 420,
        Command::Act {
            at: FIRST_BANK,
            row: 0,
        },
    ),
    (
        49 + 436,
        Command::Wr {
            at: FIRST_BANK,
            column: 0,
        },
    ),
    (49 + 470, Command::Pre { at: FIRST_BANK }),
    (49 + 486, Command::Sre { rank: 0 }),
];

// Its last command before is a WR, so its rows are closed 34 clocks later, and have rested by another 16.
#[test]
fn a_drain_with_one_refresh_owed(rt: HostRuntime) {
    let mut run = with_writes(&rt, &[]);
    run.busy_until(&rt, 9_400);
    run.finish(&rt);
    same(&rt, run.put(&rt, 1, 0x22), true);
    run.finish(&rt);
    same(&rt, run.put(&rt, 0, 0x11), true);
    let expected = behind(&rt, run.next_clock(), &ONE_REFRESHED);
    let drained = run.drain(&rt);
    same(&rt, drained.commands.as_slice(), expected.as_slice());
    let report = DrainReport {
        clocks: 49 + 487,
        spent: 49 + 487 + 1 + 20 + 4 + 2 + 1 + 1,
    };
    same(&rt, drained.report, report);
}

const FIRST_PLACE: Place = Place {
    channel: 0,
    rank: 0,
    group: 0,
    bank: 0,
    row: 0,
    column: 0,
};

// A channel of four ranks, on each of which a row is open and a write is pending.
fn four_open<R: Abort + AllocGlobal>(rt: &R) -> Run {
    let mut run = Run::new(rt, &TINY, &FOUR_RANKS, 7, 1);
    for rank in 0..4 {
        let place = Place {
            rank,
            ..FIRST_PLACE
        };
        let line = run.fixture.line_at(rt, place);
        same(rt, run.put(rt, line / 2, 0x33), true);
    }
    for _ in 0..4 {
        run.step(rt);
    }
    run
}

#[test]
fn a_drain_with_open_rows_on_four_ranks(rt: HostRuntime) {
    let mut run = four_open(&rt);
    let drained = run.drain(&rt);
    let expected = "39 PREA 0\n40 PREA 1\n41 PREA 2\n42 PREA 3\n\
        58 ACT 0 0 0 0\n74 WR 0 0 0 0\n108 PRE 0 0 0\n\
        124 ACT 1 0 0 0\n140 WR 1 0 0 0\n174 PRE 1 0 0\n\
        190 ACT 2 0 0 0\n206 WR 2 0 0 0\n240 PRE 2 0 0\n\
        256 ACT 3 0 0 0\n272 WR 3 0 0 0\n306 PRE 3 0 0\n\
        322 SRE 0\n323 SRE 1\n324 SRE 2\n325 SRE 3\n";
    was(&rt, &drained, expected, 322, 322 + 4 + 4 * 7 + 4);
}
