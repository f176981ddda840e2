// The events that are asked for, and their answers, in numbers.
ghost use Rattle.std.specs.Prelude.{◌≡◌, ◌≢◌, All, IfErr, IfOk, IfSome, map};
ghost use Rattle.ddr4_module.specs.WildLives.{WorksWithin};
ghost use Rattle.whole_lives.specs.Events.{AreAsked, IsAsked, answer_of, answered, answered_with};

use channel_port::{Collected, Got, Ticket};
use line_memory::{LINE_BYTES, Line, Write};
use nv_machine::{Event, Reply};
use reply_codes::{
    DONE, NO_EVENT, NO_MEMORY, NO_SUCH_READ, READ_WAITS, Told, arm_told, disarm_told, loss_told,
    read_told, refusal_told, save_told, ticket_told, write_told,
};
use std::alloc::{AllocError, Global};

/// An event that is asked for: which one, the numbers that it names, and the bytes of a write.
#[repr(C)]
#[derive(Clone, Copy)]
pub struct Ask {
    pub kind: u64,
    pub first: u64,
    pub second: u64,
    pub data: Line,
}

/// The answer to an event: a code with its numbers, and the bytes that were read, else zeros.
#[repr(C)]
#[derive(Clone, Copy)]
pub struct Answer {
    pub code: u64,
    pub first: u64,
    pub second: u64,
    pub data: Line,
}

// The event that is asked for, if there is one; no channel is worked that isn't there.
fn event_of(ask: &Ask, channels: u64) -> Option<Event>
    ensures is { IfSome result (IsAsked ask.now) }
    ensures within { IfSome result (WorksWithin channels) }
{
    match ask.kind {
        1 => Some(Event::Write(Write {
            line: ask.first,
            data: ask.data,
        })),
        2 => Some(Event::Read { line: ask.first }),
        3 => Some(Event::Collect(Ticket {
            channel: ask.first,
            serial: u128::from(ask.second),
        })),
        4 if ask.first < channels => Some(Event::Work { channel: ask.first }),
        5 => Some(Event::Sense),
        6 => Some(Event::Arm),
        7 => Some(Event::Disarm),
        8 => Some(Event::SaveBegin),
        9 => Some(Event::SaveStep),
        10 => Some(Event::Lose),
        _ => None,
    }
}

/// The events that are asked for, or what is told of the first one that there isn't: its number among them.
pub(crate) fn events_of(alloc: Global, asks: &[Ask], channels: u64) -> Result<Vec<Event>, Told>
    ensures are { IfOk result (λ events. AreAsked asks.now events.items) }
    ensures within { IfOk result (λ events. All (WorksWithin channels) events.items) }
    ensures refused { IfErr result (λ told. (told.code ≢ 0) × (told.code ≢ 2)) }
{
    let mut events = Vec::new(alloc);
    let mut left = asks;
    while let [ask, behind @ ..] = left {
        let Some(event) = event_of(ask, channels) else {
            return Err(Told::with(NO_EVENT, (asks.len() - left.len()) as u64, 0));
        };
        if events.push(event).is_err() {
            return Err(Told::code(NO_MEMORY));
        }
        left = behind;
    }
    Ok(events)
}

// An answer with bytes.
fn with_bytes(told: Told, bytes: Line) -> Answer
    ensures { result ≡ answered_with told bytes }
{
    Answer {
        code: u64::from(told.code),
        first: told.numbers.first,
        second: told.numbers.second,
        data: bytes,
    }
}

// An answer with none.
fn with_none(told: Told) -> Answer
    ensures { result ≡ answered told }
{
    with_bytes(told, [0; LINE_BYTES])
}

// The answer that a reply comes to.
fn answer_of(reply: Reply) -> Answer
    ensures { result ≡ answer_of reply }
{
    match reply {
        Reply::Write(reply) => with_none(write_told(reply)),
        Reply::Read(Ok(Got::Now(bytes))) => with_bytes(Told::code(DONE), bytes),
        Reply::Read(Ok(Got::Later(ticket))) => with_none(ticket_told(ticket)),
        Reply::Read(Err(refusal)) => with_none(read_told(Err(refusal))),
        Reply::Collect(Collected::Data { line, bytes, at }) => {
            with_bytes(Told::with(DONE, line, at), bytes)
        }
        Reply::Collect(Collected::Pending) => with_none(Told::code(READ_WAITS)),
        Reply::Collect(Collected::Unknown) => with_none(Told::code(NO_SUCH_READ)),
        Reply::Work(Some(_)) => with_none(Told::with(DONE, 1, 0)),
        Reply::Work(None) => with_none(Told::code(DONE)),
        Reply::Sense(level) => with_none(Told::with(DONE, level, 0)),
        Reply::Arm(reply) => with_none(arm_told(reply)),
        Reply::Disarm(reply) => with_none(disarm_told(reply)),
        Reply::SaveBegin(Ok(())) => with_none(Told::code(DONE)),
        Reply::SaveBegin(Err(refusal)) => with_none(refusal_told(refusal)),
        Reply::SaveStep(reply) => with_none(save_told(Ok(reply))),
        Reply::Lose(loss) => with_none(loss_told(loss)),
    }
}

/// The answers that replies come to.
pub(crate) fn answers_of(alloc: Global, replies: &[Reply]) -> Result<Vec<Answer>, AllocError>
    ensures { IfOk result (λ answers. answers.items
        ≡ map Rattle.whole_lives.specs.Events.answer_of replies.now) }
{
    let mut answers = Vec::new(alloc);
    let mut left = replies;
    while let [reply, behind @ ..] = left {
        answers.push(answer_of(*reply))?;
        left = behind;
    }
    Ok(answers)
}
