// The scheduler's choices on a channel of one rank, worked by hand.
ghost use Rattle.std.specs.Prelude.{◌≡◌, ◌<◌, ◌^◌, IfSome};

use crate::tests::check::same;
use bank_core::banks::Banks;
use ddr4_timing::command::Command;
use ddr4_timing::place::{BankAddress, Place};
use ddr4_timing::profiles::{SMALL, TINY};
use frfcfs::next::{Next, choose, next_command};
use frfcfs::queue::Queue;
use request_notes::pending::Kind;
use std::process::Abort;

const BANK: BankAddress = BankAddress {
    rank: 0,
    group: 0,
    bank: 0,
};

// A line of the first bank of channel 0.
fn place(row: u64, column: u64) -> Place {
    Place {
        channel: 0,
        rank: 0,
        group: 0,
        bank: 0,
        row,
        column,
    }
}

fn act(row: u64) -> Command {
    Command::Act { at: BANK, row }
}

fn read(column: u64) -> Command {
    Command::Rd { at: BANK, column }
}

fn write(column: u64) -> Command {
    Command::Wr { at: BANK, column }
}

const PRE: Command = Command::Pre { at: BANK };

const PRE_ALL: Command = Command::PreAll { rank: 0 };

// A channel's banks, its requests and its clock.
#[derive(Drop)]
struct Bench {
    banks: Banks,
    queue: Queue,
    now: u64,
}

impl Bench {
    fn new<R: Abort + AllocGlobal>(rt: &R) -> Bench {
        let checked = TINY.check(&SMALL).expect(rt, "a profile");
        Bench {
            banks: Banks::new(&checked),
            queue: Queue::with_room(rt.alloc(), 8).expect(rt, "memory"),
            now: 0,
        }
    }

    fn push<R: Abort>(&mut self, rt: &R, kind: Kind, line: u64, place: Place, held: bool) {
        assert!(*rt; !self.queue.is_full() && self.queue.next() < u64::MAX);
        self.queue.push(place, line, kind, line, held);
    }

    // A write of a line, which lies at a place.
    fn writes<R: Abort>(&mut self, rt: &R, line: u64, place: Place) {
        self.push(rt, Kind::Write, line, place, false);
    }

    fn reads<R: Abort>(&mut self, rt: &R, line: u64, place: Place) {
        self.push(rt, Kind::Read, line, place, false);
    }

    // Goes to the next command, and takes the request that it serves out.
    fn step(&mut self) -> Option<Next> {
        if !self.queue.lies_in(&self.banks.checked().geometry) {
            return None;
        }
        let next = next_command(&self.banks, &self.queue, self.now)?;
        self.banks.issue(next.cmd, next.clock);
        self.queue.follow(&next.cmd);
        self.now = next.clock;
        if let Some(place) = next.serves {
            self.queue.take(place);
        }
        Some(next)
    }

    // The next command, at this clock, serves this request.
    fn steps<R: Abort>(&mut self, rt: &R, clock: u64, cmd: Command, serves: Option<usize>) {
        same(rt, self.step(), Some(Next { clock, cmd, serves }));
    }

    // The choice at this clock.
    fn chooses<R: Abort>(&self, rt: &R, clock: u64, cmd: Option<Command>) {
        let chosen = choose(&self.banks, self.queue.requests(), clock);
        same(rt, (clock, chosen), (clock, cmd));
    }

    // No command may go at clock 0, nor later.
    fn stands<R: Abort>(&mut self, rt: &R) {
        self.chooses(rt, 0, None);
        same(rt, self.step(), None);
    }
}

#[test]
fn the_youngest_goes_before_the_second(rt: HostRuntime) {
    let mut bench = Bench::new(&rt);
    bench.writes(&rt, 0, place(0, 0));
    bench.writes(&rt, 64, place(1, 0));
    bench.writes(&rt, 2, place(0, 1));
    bench.steps(&rt, 0, act(0), None);
    bench.steps(&rt, 16, write(0), Some(0));
    bench.steps(&rt, 22, write(1), Some(1));
    bench.steps(&rt, 56, PRE, None);
    bench.steps(&rt, 72, act(1), None);
    bench.steps(&rt, 88, write(0), Some(0));
    same(&rt, bench.step(), None);
}

#[test]
fn a_read_before_a_write(rt: HostRuntime) {
    let mut bench = Bench::new(&rt);
    bench.reads(&rt, 2, place(0, 1));
    bench.writes(&rt, 4, place(0, 2));
    bench.steps(&rt, 0, act(0), None);
    bench.steps(&rt, 16, read(1), Some(0));
    bench.steps(&rt, 26, write(2), Some(0));
}

#[test]
fn a_held_request_waits(rt: HostRuntime) {
    let mut bench = Bench::new(&rt);
    bench.push(&rt, Kind::Write, 0, place(0, 0), true);
    bench.stands(&rt);
    bench.queue.hold(Some(1));
    bench.chooses(&rt, 0, Some(act(0)));
    bench.queue.hold(Some(0));
    bench.stands(&rt);
    bench.queue.hold(None);
    bench.steps(&rt, 0, act(0), None);
}

#[test]
fn a_younger_request_of_a_line_waits(rt: HostRuntime) {
    let mut bench = Bench::new(&rt);
    bench.writes(&rt, 2, place(0, 1));
    bench.reads(&rt, 2, place(0, 1));
    bench.reads(&rt, 4, place(0, 2));
    bench.steps(&rt, 0, act(0), None);
    bench.chooses(&rt, 16, Some(write(1)));
    bench.steps(&rt, 16, write(1), Some(0));
    // at 41 the read of the written line is the older of two that may go
    bench.steps(&rt, 41, read(1), Some(0));
    bench.steps(&rt, 47, read(2), Some(0));
}

#[test]
fn a_choice_at_each_clock(rt: HostRuntime) {
    let mut bench = Bench::new(&rt);
    bench.writes(&rt, 0, place(0, 0));
    bench.steps(&rt, 0, act(0), None);
    bench.chooses(&rt, 15, None);
    bench.chooses(&rt, 16, Some(write(0)));
    bench.chooses(&rt, 74_879, Some(write(0)));
    bench.chooses(&rt, 74_880, Some(PRE_ALL));
    bench.chooses(&rt, 84_240, Some(PRE_ALL));
    bench.chooses(&rt, 84_241, None);
    bench.chooses(&rt, u64::MAX, None);
}

const OUTSIDE: Place = Place {
    channel: 0,
    rank: 1,
    group: 0,
    bank: 0,
    row: 0,
    column: 0,
};

#[test]
fn a_place_outside_is_never_chosen(rt: HostRuntime) {
    let mut bench = Bench::new(&rt);
    bench.writes(&rt, 0, OUTSIDE);
    bench.writes(&rt, 2, place(2, 0));
    bench.chooses(&rt, 0, None);
    bench.writes(&rt, 4, place(1, 0));
    bench.chooses(&rt, 0, Some(act(1)));
}

#[test]
fn a_rank_in_lead_comes_first(rt: HostRuntime) {
    let mut bench = Bench::new(&rt);
    bench.writes(&rt, 0, place(0, 0));
    bench.now = 74_870;
    bench.steps(&rt, 74_870, act(0), None);
    bench.steps(&rt, 74_909, PRE_ALL, None);
    bench.steps(&rt, 74_925, Command::Ref { rank: 0 }, None);
    bench.steps(&rt, 75_345, act(0), None);
}
