// Channels that are busy past many refresh intervals.
use crate::tests::check::same;
use crate::tests::fixture::Fixture;
use crate::tests::picks::Picks;
use crate::tests::profiles::FOUR_RANKS;
use crate::tests::run::refreshes;
use bench_load::Random;
use channel_port::{Collected, Got, Served, Ticket};
use ddr4_timing::command::Stamped;
use ddr4_timing::profiles::{SHORT_ROWS, SMALL, TIGHT, TINY};
use std::process::Abort;

// Writes until the queue is full.
fn fill_writes<R: Abort>(rt: &R, channel: &mut Fixture, picks: &mut Picks) {
    for byte in 0..255 {
        let line = channel.line(picks.next());
        if channel.put(rt, line, byte).is_err() {
            return;
        }
    }
    panic!(*rt; "never full");
}

// Reads until no further read may wait; the tickets are added to the others.
fn fill_reads<R: Abort>(
    rt: &R,
    channel: &mut Fixture,
    picks: &mut Picks,
    tickets: &mut Vec<Ticket>,
) {
    for _ in 0..1000 {
        let line = channel.line(picks.next());
        match channel.get(rt, line) {
            Ok(Got::Now(_)) => {}
            Ok(Got::Later(ticket)) => tickets.push(ticket).expect(rt, "memory"),
            Err(_) => return,
        }
    }
    panic!(*rt; "never full");
}

// Collects the reads that were answered; the tickets that are left.
fn waiting<R: Abort + AllocGlobal>(
    rt: &R,
    channel: &mut Fixture,
    tickets: &[Ticket],
) -> Vec<Ticket> {
    let mut left = Vec::new(rt.alloc());
    for ticket in tickets {
        match channel.collect(*ticket) {
            Collected::Data { .. } => {}
            Collected::Pending => left.push(*ticket).expect(rt, "memory"),
            Collected::Unknown => panic!(*rt; "unknown ticket"),
        }
    }
    left
}

// What fills both queues of a channel, and the reads that wait.
#[derive(Drop)]
struct Load {
    picks: Picks,
    tickets: Vec<Ticket>,
}

impl Load {
    fn new<R: AllocGlobal>(rt: &R, salt: u64, apart: u64) -> Load {
        Load {
            picks: Picks {
                random: Random::with_seed(salt),
                apart,
            },
            tickets: Vec::new(rt.alloc()),
        }
    }

    fn fill<R: Abort>(&mut self, rt: &R, channel: &mut Fixture) {
        fill_writes(rt, channel, &mut self.picks);
        fill_reads(rt, channel, &mut self.picks, &mut self.tickets);
    }
}

// Sixteen commands of a channel, after its answered reads were collected and both queues filled.
fn sixteen<R: Abort + AllocGlobal>(rt: &R, channel: &mut Fixture, load: &mut Load) -> Vec<Stamped> {
    load.tickets = waiting(rt, channel, &load.tickets);
    load.fill(rt, channel);
    let commands = channel.work_many(rt, 16);
    same(rt, commands.len(), 16);
    commands
}

fn is_past(list: &[Stamped], until: u64) -> bool {
    match list.last() {
        Some(last) => last.clock > until,
        None => false,
    }
}

// The commands of a channel up to a clock, sixteen at a time; both queues are full before each of these.
fn busy<R: Abort + AllocGlobal>(rt: &R, channel: &mut Fixture, until: u64) -> Vec<Stamped> {
    let mut list = Vec::new(rt.alloc());
    let mut load = Load::new(rt, 7, 1);
    for _ in 0..10_000 {
        let commands = sixteen(rt, channel, &mut load);
        list.extend_from_slice(&commands).expect(rt, "memory");
        if is_past(&list, until) {
            return list;
        }
    }
    panic!(*rt; "not there in time")
}

// One command of a channel, after both queues were filled; the read that it serves is collected.
fn conflict<R: Abort>(rt: &R, channel: &mut Fixture, load: &mut Load) -> Stamped {
    load.fill(rt, channel);
    let done = channel.work().expect(rt, "a command");
    if let Some(Served::Read(ticket)) = done.served {
        channel.collect(ticket);
    }
    done.command
}

// The commands of a channel up to a clock, whose queues are full of conflicts before each command.
fn conflicts<R: Abort + AllocGlobal>(
    rt: &R,
    channel: &mut Fixture,
    salt: u64,
    until: u64,
) -> Vec<Stamped> {
    let mut list = Vec::new(rt.alloc());
    let mut load = Load::new(rt, salt, 4);
    for _ in 0..until {
        let command = conflict(rt, channel, &mut load);
        list.push(command).expect(rt, "memory");
        if command.clock > until {
            return list;
        }
    }
    panic!(*rt; "not there in time")
}

// The commands break no rule, and so many of them at least are refreshes.
fn keeps_every_rule<R: Abort>(rt: &R, channel: &Fixture, list: &[Stamped], least: usize) {
    same(rt, channel.fault(list), None);
    same(rt, refreshes(list) >= least, true);
}

#[test]
fn a_busy_channel_keeps_every_rule(rt: HostRuntime) {
    for (geometry, least) in [(SMALL, 12), (FOUR_RANKS, 48)] {
        let mut channel = Fixture::new(&rt, &TINY, &geometry, 8, 8);
        let list = busy(&rt, &mut channel, 21 * 9360);
        keeps_every_rule(&rt, &channel, &list, least);
    }
}

#[test]
fn the_tightest_profile_never_gets_stuck(rt: HostRuntime) {
    for salt in 0..8 {
        let mut channel = Fixture::new(&rt, &TIGHT, &SHORT_ROWS, 64, 64);
        let list = conflicts(&rt, &mut channel, salt, 50 * 184);
        keeps_every_rule(&rt, &channel, &list, 4 * 41);
    }
}
