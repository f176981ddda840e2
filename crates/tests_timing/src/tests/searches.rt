// The next command of a queue beside the choice over its list, where requests crowd one line, one row, one bank or all banks.
use crate::tests::check::same;
use bank_core::banks::Banks;
use ddr4_timing::place::Place;
use ddr4_timing::profiles::{LARGEST, SHORT_ROWS, SMALL, TIGHT, WIDEST};
use ddr4_timing::timing::Geometry;
use frfcfs::next::{choose, next_command};
use frfcfs::queue::{Queue, is_held};
use request_notes::pending::{Kind, Pending};
use std::process::Abort;

// What the places of a crowd have in common.
#[derive(Clone, Copy)]
enum Crowd {
    Line,
    Row,
    Bank,
    Apart,
}

// Which of its commands the queue is told. What it isn't told may not change the choice.
#[derive(Clone, Copy)]
enum Told {
    Each,
    Some,
    None,
}

// A place of a crowd that a number picks.
fn picked(geometry: &Geometry, crowd: Crowd, mix: u64) -> Place {
    let channel = geometry.channels.saturating_sub(1);
    let first = Place {
        channel,
        rank: 0,
        group: 0,
        bank: 0,
        row: 0,
        column: 0,
    };
    let column = mix / 3 % 2;
    let row = mix / 5 % 2;
    match crowd {
        Crowd::Line => first,
        Crowd::Row => Place { column, ..first },
        Crowd::Bank => Place {
            row,
            column,
            ..first
        },
        Crowd::Apart => Place {
            channel,
            rank: mix / 7 % geometry.ranks.max(1),
            group: mix / 29 % geometry.groups.max(1),
            bank: mix / 11 % geometry.banks.max(1),
            row,
            column,
        },
    }
}

// A line for each of these places.
fn line_of(place: &Place) -> u64 {
    let mut line: u64 = 0;
    for part in [place.rank, place.group, place.bank, place.row, place.column] {
        line = line.wrapping_mul(4).wrapping_add(part);
    }
    line
}

// Does an older request name the line of this one?
fn has_older(pending: &[Pending], request: &Pending) -> bool {
    pending.iter().any(|older| older.seq < request.seq && older.line == request.line)
}

// Is one neither held nor behind another of its line?
fn has_eligible(pending: &[Pending]) -> bool {
    pending
        .iter()
        .any(|request| !request.held && !has_older(pending, request))
}

// The banks of a channel, its requests, its clock, and how many numbers were picked and writes pushed.
#[derive(Drop)]
struct Channel {
    banks: Banks,
    queue: Queue,
    now: u64,
    mix: u64,
    writes: u64,
    hold: Option<u64>,
    told: Told,
}

impl Channel {
    fn new<R: Abort + AllocGlobal>(
        rt: &R,
        geometry: &Geometry,
        most: usize,
        told: Told,
    ) -> Channel {
        let checked = TIGHT.check(geometry).expect(rt, "a profile");
        Channel {
            banks: Banks::new(&checked),
            queue: Queue::with_room(rt.alloc(), most).expect(rt, "memory"),
            now: 0,
            mix: 1,
            writes: 0,
            hold: None,
            told,
        }
    }

    // The next number that is picked.
    fn pick(&mut self) -> u64 {
        self.mix = self
            .mix
            .wrapping_mul(6_364_136_223_846_793_005)
            .wrapping_add(1_442_695_040_888_963_407);
        self.mix / 8_589_934_592
    }

    // Fills the queue with requests of a crowd.
    fn fill<R: Abort>(&mut self, rt: &R, crowd: Crowd, most: u64) {
        for _ in 0..most {
            if self.queue.is_full() {
                return;
            }
            let mix = self.pick();
            let kind = if mix % 2 == 0 {
                Kind::Read
            } else {
                Kind::Write
            };
            let place = picked(&self.banks.checked().geometry, crowd, mix);
            let held = is_held(self.hold, kind, self.writes);
            assert!(*rt; !self.queue.is_full() && self.queue.next() < u64::MAX);
            self.queue
                .push(place, line_of(&place), kind, self.writes, held);
            if kind == Kind::Write {
                self.writes = self.writes.saturating_add(1);
            }
        }
    }

    // A hold begins a few writes back, or ends.
    fn turn_hold(&mut self) {
        let back = self.pick() % 4;
        self.hold = match self.hold {
            None => Some(self.writes.saturating_sub(back)),
            Some(_) => None,
        };
        self.queue.hold(self.hold);
    }

    // Whether the queue is told of the command that goes now.
    fn tells(&mut self) -> bool {
        match self.told {
            Told::Each => true,
            Told::Some => self.pick() % 2 == 0,
            Told::None => false,
        }
    }

    // Goes to the next command, which is the choice at its clock over the list; no clock before has one.
    fn step<R: Abort>(&mut self, rt: &R) {
        let geometry = self.banks.checked().geometry;
        assert!(*rt; self.queue.lies_in(&geometry));
        match next_command(&self.banks, &self.queue, self.now) {
            // a channel is idle where none is eligible
            None => same(rt, has_eligible(self.queue.requests()), false),
            Some(next) => {
                let pending = self.queue.requests();
                same(rt, choose(&self.banks, pending, next.clock), Some(next.cmd));
                if next.clock > self.now {
                    same(rt, choose(&self.banks, pending, next.clock - 1), None);
                }
                self.banks.issue(next.cmd, next.clock);
                self.now = next.clock;
                if let Some(place) = next.serves {
                    self.queue.take(place);
                }
                if self.tells() {
                    self.queue.follow(&next.cmd);
                }
            }
        }
    }

    // So many commands of a crowd. Between any two of them a hold may begin, end or do both.
    fn run<R: Abort>(&mut self, rt: &R, crowd: Crowd, steps: u64) {
        for _ in 0..steps {
            self.fill(rt, crowd, 128);
            for _ in 0..self.pick() % 3 {
                self.turn_hold();
            }
            self.step(rt);
        }
    }
}

// Each crowd over each of some geometries.
fn crowds<R: Abort + AllocGlobal>(
    rt: &R,
    geometries: &[Geometry],
    most: usize,
    steps: u64,
    told: Told,
) {
    for geometry in geometries {
        let mut channel = Channel::new(rt, geometry, most, told);
        channel.run(rt, Crowd::Line, steps);
        channel.run(rt, Crowd::Row, steps);
        channel.run(rt, Crowd::Bank, steps);
        channel.run(rt, Crowd::Apart, steps.saturating_mul(4));
    }
}

// Four channels of two ranks.
const TWO_RANKS: Geometry = Geometry {
    channels: 4,
    ranks: 2,
    groups: 4,
    banks: 4,
    rows: 8,
    columns: 8,
};

// Channels of one, two and four ranks, of two groups and of four, alone and beside others.
const GEOMETRIES: [Geometry; 5] = [SMALL, SHORT_ROWS, TWO_RANKS, WIDEST, LARGEST];

#[test]
fn crowds_of_one_request(rt: HostRuntime) {
    crowds(&rt, &GEOMETRIES, 1, 100, Told::Each);
    crowds(&rt, &GEOMETRIES, 1, 50, Told::Some);
}

#[test]
fn crowds_of_some_requests(rt: HostRuntime) {
    crowds(&rt, &GEOMETRIES, 9, 60, Told::Each);
    crowds(&rt, &GEOMETRIES, 9, 60, Told::Some);
}

#[test]
fn crowds_that_nothing_is_told(rt: HostRuntime) {
    crowds(&rt, &GEOMETRIES, 9, 60, Told::None);
}

#[test]
fn crowds_of_the_most_requests(rt: HostRuntime) {
    crowds(&rt, &[LARGEST], 128, 50, Told::Each);
}

#[test]
fn crowds_of_the_most_requests_of_two_groups(rt: HostRuntime) {
    crowds(&rt, &[SMALL, SHORT_ROWS], 128, 25, Told::Some);
}

#[test]
fn crowds_of_the_most_requests_beside_other_channels(rt: HostRuntime) {
    crowds(&rt, &[TWO_RANKS, WIDEST], 128, 25, Told::Each);
}
