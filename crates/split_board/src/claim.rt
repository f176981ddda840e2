// What a line that was asked for comes to.
use board_hosts::Seen;
use channel_port::Ticket;
use std::marker::PhantomData;

/// A read that waits, of one board. `Board::ask` alone makes a claim, for the host that asked, and `Board::await_line` takes it: so
/// no host is given what another one waits for, and nobody waits twice. A claim that is let go leaves its read open, which takes a
/// place of its channel's until mains are lost.
#[derive(Drop)]
pub struct Claim<B> {
    pub(crate) ticket: Ticket,
    pub(crate) line: u64,
    pub(crate) at: u64,
    pub(crate) of: PhantomData<B>,
}

/// The answer to a line that was asked for.
#[derive(Drop)]
pub enum Asked<B> {
    /// The line, as it was read.
    Now(Seen),
    /// It is to be awaited.
    Later(Claim<B>),
}
