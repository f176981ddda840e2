// A channel with a plain account of what went into it and what it issued.
use crate::tests::check::same;
use crate::tests::fixture::Fixture;
use crate::tests::picks::Picks;
use crate::tests::plain::{Plain, spent};
use bench_load::Random;
use chan_core::Channel;
use channel_port::Served;
use ddr4_timing::command::{Command, Stamped};
use ddr4_timing::place::Place;
use ddr4_timing::timing::{Geometry, Timing};
use drain_core::DrainReport;
use energy_budget::{Action, TINY_COSTS};
use std::process::Abort;

/// A channel, its commands so far, its pending writes and the byte of each of its lines.
#[derive(Drop)]
pub struct Run {
    pub fixture: Fixture,
    commands: Vec<Stamped>,
    pending: Vec<(u64, Place)>,
    bytes: Vec<u8>,
    picks: Picks,
}

/// What a drain did.
#[derive(Drop)]
pub struct Drained {
    pub report: DrainReport,
    /// One past the clock of the last command before.
    pub start: u64,
    pub commands: Vec<Stamped>,
}

impl Run {
    /// Its requests go to lines so many apart.
    pub(crate) fn new<R: Abort + AllocGlobal>(
        rt: &R,
        timing: &Timing,
        geometry: &Geometry,
        salt: u64,
        apart: u64,
    ) -> Run {
        let fixture = Fixture::new(rt, timing, geometry, 8, 8);
        let bytes = Vec::from_elem(rt.alloc(), 0, fixture.lines() as usize);
        Run {
            fixture,
            commands: Vec::new(rt.alloc()),
            pending: Vec::new(rt.alloc()),
            bytes: bytes.expect(rt, "memory"),
            picks: Picks {
                random: Random::with_seed(salt),
                apart,
            },
        }
    }

    /// Writes a line that the number picks; false where no further write may wait.
    pub(crate) fn put<R: Abort>(&mut self, rt: &R, pick: u64, byte: u8) -> bool {
        let line = self.fixture.line(pick);
        let Ok(write) = self.fixture.put(rt, line, byte) else {
            return false;
        };
        self.pending.push(write).expect(rt, "memory");
        let index = pick.checked_rem(self.fixture.lines()).unwrap_or(0);
        if let Some(old) = self.bytes.get_mut(index as usize) {
            *old = byte;
        }
        true
    }

    // Writes until no further write may wait.
    fn fill_writes<R: Abort>(&mut self, rt: &R) {
        for byte in 1..255 {
            let pick = self.picks.next();
            if !self.put(rt, pick, byte) {
                return;
            }
        }
        panic!(*rt; "never full");
    }

    /// Writes and reads until no further request may wait.
    pub(crate) fn fill<R: Abort>(&mut self, rt: &R) {
        self.fill_writes(rt);
        for _ in 0..1000 {
            let pick = self.picks.next();
            let line = self.fixture.line(pick);
            if self.fixture.get(rt, line).is_err() {
                return;
            }
        }
        panic!(*rt; "never full");
    }

    /// Issues one command, if there is one, and collects the read that it answered: its clock.
    pub(crate) fn step<R: Abort>(&mut self, rt: &R) -> Option<u64> {
        let done = self.fixture.work()?;
        self.commands.push(done.command).expect(rt, "memory");
        match done.served {
            Some(Served::Write { number }) => self.pending.retain(|write| write.0 != number),
            Some(Served::Read(ticket)) => {
                self.fixture.collect(ticket);
            }
            None => {}
        }
        Some(done.command.clock)
    }

    /// Works with full queues up to a clock.
    pub(crate) fn busy_until<R: Abort>(&mut self, rt: &R, until: u64) {
        for _ in 0..until {
            self.fill(rt);
            if self.step(rt).expect(rt, "a command") >= until {
                return;
            }
        }
        panic!(*rt; "not there in time");
    }

    /// Works until nothing waits.
    pub(crate) fn finish<R: Abort>(&mut self, rt: &R) {
        for _ in 0..10_000 {
            if self.step(rt).is_none() {
                return;
            }
        }
        panic!(*rt; "never idle");
    }

    /// One past the clock of the last command.
    pub(crate) fn next_clock(&self) -> u64 {
        self.commands
            .last()
            .map_or(0, |last| last.clock.saturating_add(1))
    }

    /// Whether the array has the last byte that was written to each line.
    pub(crate) fn has_bytes<R: Abort>(&self, rt: &R) -> bool {
        for (index, byte) in self.bytes.iter().enumerate() {
            let line = self.fixture.line(index as u64);
            if self.fixture.stored(rt, line) != [*byte; 64] {
                return false;
            }
        }
        true
    }

    // The places of the pending writes, oldest first.
    fn places<R: Abort + AllocGlobal>(&self, rt: &R) -> Vec<Place> {
        let mut places = Vec::new(rt.alloc());
        for (_, place) in self.pending.iter() {
            places.push(*place).expect(rt, "memory");
        }
        places
    }

    // All commands with those of a drain of the pending writes, reckoned plainly.
    fn plainly<R: Abort + AllocGlobal>(&self, rt: &R, places: &[Place]) -> Vec<Stamped> {
        let commands = self.commands.to_vec(rt.alloc()).expect(rt, "memory");
        Plain::new(&self.fixture.checked(), commands).drained(rt, places)
    }

    /// The channel alone.
    pub(crate) fn into_channel(self) -> Channel {
        self.fixture.into_channel()
    }

    /// Drains the channel, and checks what the drain issued, took and left.
    pub(crate) fn drain<R: Abort + AllocGlobal>(&mut self, rt: &R) -> Drained {
        let start = self.next_clock();
        let places = self.places(rt);
        let plain = self.plainly(rt, &places);
        let report = self.fixture.drain(rt);
        let commands = self.fixture.recent_from(rt, start);
        self.commands
            .extend_from_slice(&commands)
            .expect(rt, "memory");
        self.pending.clear();
        same(rt, self.commands.as_slice(), plain.as_slice());
        self.check_left(rt);
        let drained = Drained {
            report,
            start,
            commands,
        };
        self.check_report(rt, &drained, places.len() as u64);
        drained
    }

    // No rule is broken, no write is pending, and each line has its last byte.
    fn check_left<R: Abort>(&self, rt: &R) {
        same(rt, self.fixture.fault(&self.commands), None);
        same(rt, self.fixture.channel().pending(), 0);
        same(rt, self.has_bytes(rt), true);
    }

    // The clocks and what was spent are those of the commands, and within their bounds.
    fn check_report<R: Abort>(&self, rt: &R, drained: &Drained, writes: u64) {
        let report = drained.report;
        let clocks = self.next_clock().saturating_sub(drained.start);
        same(rt, report.clocks, clocks);
        same(
            rt,
            report.spent,
            spent(&TINY_COSTS, &drained.commands, clocks),
        );
        let costs = self.fixture.costs();
        let most = writes
            .saturating_mul(costs.entry)
            .saturating_add(costs.close);
        same(rt, clocks <= most, true);
        let entries = writes.saturating_mul(costs.cost(Action::EntryStep));
        let most = entries.saturating_add(costs.cost(Action::CloseStep));
        same(rt, report.spent <= most, true);
    }
}

/// How many of the commands are a REF.
pub(crate) fn refreshes(commands: &[Stamped]) -> usize {
    let mut count = 0_usize;
    for command in commands {
        if matches!(command.cmd, Command::Ref { .. }) {
            count = count.saturating_add(1);
        }
    }
    count
}
