// Worked requests on channel 0 of the small profile.
use crate::tests::check::same;
use crate::tests::fixture::Fixture;
use crate::tests::profiles::text;
use chan_core::ReadsFull;
use channel_port::{Collected, Got, Ticket};
use ddr4_timing::command::Stamped;
use ddr4_timing::profiles::{SMALL, TINY};
use std::process::Abort;

fn channel<R: Abort + AllocGlobal>(rt: &R) -> Fixture {
    Fixture::new(rt, &TINY, &SMALL, 8, 8)
}

// A write of a line of one byte has room.
fn takes<R: Abort>(rt: &R, channel: &mut Fixture, line: u64, byte: u8) {
    same(rt, channel.put(rt, line, byte).is_ok(), true);
}

// The commands read so.
fn reads_as<R: Abort + AllocGlobal>(rt: &R, commands: &[Stamped], expected: &str) {
    same(rt, text(rt, commands).as_str(), expected);
}

// The ticket of a read that waits for its RD.
fn waits<R: Abort>(rt: &R, channel: &mut Fixture, line: u64) -> Ticket {
    match channel.get(rt, line) {
        Ok(Got::Later(ticket)) => ticket,
        _ => panic!(*rt; "no ticket"),
    }
}

// The ticket of a read before any write has a line of zeros, once.
fn answers_zeros<R: Abort>(rt: &R, channel: &mut Fixture, ticket: Ticket, line: u64) {
    let zeros = Collected::Data {
        line,
        bytes: [0; 64],
        at: 0,
    };
    same(rt, channel.collect(ticket), zeros);
    same(rt, channel.collect(ticket), Collected::Unknown);
}

#[test]
fn a_read_and_a_write_of_one_row(rt: HostRuntime) {
    let mut channel = channel(&rt);
    let ticket = waits(&rt, &mut channel, 2);
    takes(&rt, &mut channel, 4, 0x22);
    let commands = channel.work_many(&rt, 3);
    let expected = "0 ACT 0 0 0 0\n16 RD 0 0 0 1\n26 WR 0 0 0 2\n";
    reads_as(&rt, &commands, expected);
    answers_zeros(&rt, &mut channel, ticket, 2);
}

// A later read of the same line has another ticket.
#[test]
fn a_collected_ticket_is_not_given_again(rt: HostRuntime) {
    let mut channel = channel(&rt);
    let ticket = waits(&rt, &mut channel, 2);
    let commands = channel.work_many(&rt, 2);
    reads_as(&rt, &commands, "0 ACT 0 0 0 0\n16 RD 0 0 0 1\n");
    answers_zeros(&rt, &mut channel, ticket, 2);
    let next = waits(&rt, &mut channel, 2);
    same(&rt, next == ticket, false);
    same(&rt, channel.collect(ticket), Collected::Unknown);
}

// The second write is of another row than the two others.
#[test]
fn the_youngest_write_goes_before_the_second(rt: HostRuntime) {
    let mut channel = channel(&rt);
    takes(&rt, &mut channel, 0, 0x11);
    takes(&rt, &mut channel, 64, 0x22);
    takes(&rt, &mut channel, 2, 0x33);
    let commands = channel.work_many(&rt, 7);
    let expected =
        "0 ACT 0 0 0 0\n16 WR 0 0 0 0\n22 WR 0 0 0 1\n56 PRE 0 0 0\n72 ACT 0 0 0 1\n88 WR 0 0 0 0\n";
    reads_as(&rt, &commands, expected);
    same(&rt, channel.work(), None);
}

// No command goes out for a held write, and none is remembered.
#[test]
fn a_held_write_waits_for_its_release(rt: HostRuntime) {
    let mut channel = channel(&rt);
    channel.hold_from(0);
    takes(&rt, &mut channel, 0, 0x11);
    same(&rt, channel.work(), None);
    same(&rt, channel.channel().recent(0), None);
    channel.release();
    let command = channel.work().expect(&rt, "a command").command;
    reads_as(&rt, &[command], "0 ACT 0 0 0 0\n");
    same(&rt, channel.channel().recent(0), Some(command));
    same(&rt, channel.channel().recent(1), None);
}

// Eight writes of a line have room, and a ninth comes back.
fn takes_eight<R: Abort>(rt: &R, channel: &mut Fixture) {
    for byte in 0..8 {
        takes(rt, channel, 64, byte);
    }
    match channel.put(rt, 2, 0x99) {
        Ok(_) => panic!(*rt; "there was room"),
        Err(full) => {
            same(rt, full.refused.number, 8);
            same(rt, full.refused.write.data, [0x99; 64]);
        }
    }
}

// Eight reads wait, and before the last one the line of the pending writes is read at once.
fn waits_for_eight<R: Abort>(rt: &R, channel: &mut Fixture) {
    for pair in 0..7 {
        waits(rt, channel, 2 * pair);
    }
    same(rt, channel.get(rt, 64), Ok(Got::Now([7; 64])));
    waits(rt, channel, 14);
}

// A further read is refused, that of a line with a pending write too.
#[test]
fn refuses_at_the_limits_exactly(rt: HostRuntime) {
    let mut channel = channel(&rt);
    takes_eight(&rt, &mut channel);
    waits_for_eight(&rt, &mut channel);
    same(&rt, channel.get(&rt, 64), Err(ReadsFull));
    same(&rt, channel.get(&rt, 16), Err(ReadsFull));
}

// It takes room for as many commands as it may issue, and for no more.
#[test]
fn room_for_many_commands(rt: HostRuntime) {
    let mut channel = channel(&rt);
    takes(&rt, &mut channel, 4, 0x22);
    same(&rt, channel.work_many(&rt, 1 << 20).len(), 2);
}
