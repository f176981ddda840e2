// A read that waits for commands of its channel.
ghost use Rattle.std.specs.Prelude.{◌≡◌, ◌<◌};
ghost use Rattle.module_core.specs.Stands.{HasChannel, lines_of_module, setup_of};
ghost use Rattle.nv_session.specs.Coming.{ComesAlone};
ghost use Rattle.nv_session.specs.Living.{SameStored};
ghost use Rattle.open_life.specs.Reads.{AwaitsLine, ReadsLine};

use arm_state::ReadRefusal;
use channel_port::{ChannelPort, Collected, Got, Ticket};
use line_memory::Line;
use module_core::Module;

/// What a read comes to.
#[derive(Clone, Copy, Debug, PartialEq, Eq)]
pub enum LineRead {
    Content(Line),
    /// It waits for a command of its channel.
    Waiting(Ticket),
}

// The channel of a line; 0 where there is no such line.
fn channel_of<K: ChannelPort>(running: &Module<K>, line: u64) -> u64
    ensures known { HasChannel K.ChannelPort running.now result }
    ensures is { line < lines_of_module K.ChannelPort running.now
        → result ≡ (setup_of K.ChannelPort running.now).shape.channel_of line }
{
    match running.channels().locate(line) {
        Some(place) => place.channel,
        None => 0,
    }
}

// Works the channel of a read that waits, until it has its bytes, the channel is idle, or the turns are over.
fn await_read<K: ChannelPort>(
    running: &mut Module<K>,
    channel: u64,
    ticket: Ticket,
    turns: u64,
) -> LineRead
    requires { HasChannel K.ChannelPort running.old channel }
    ensures comes { channel ≡ ticket.channel
        → ComesAlone K.ChannelPort (AwaitsLine turns ticket result) running.old running.new }
    ensures stored { SameStored K.ChannelPort running.old running.new }
    ensures setup { setup_of K.ChannelPort running.new ≡ setup_of K.ChannelPort running.old }
{
    for _turn in 0..turns {
        match running.collect(ticket) {
            Collected::Data { bytes, .. } => return LineRead::Content(bytes),
            _ => {
                let Some(_) = running.work(channel) else {
                    return LineRead::Waiting(ticket);
                };
            }
        }
    }
    match running.collect(ticket) {
        Collected::Data { bytes, .. } => LineRead::Content(bytes),
        _ => LineRead::Waiting(ticket),
    }
}

/// Reads a line of the memory after all accepted writes. Where its bytes are to come with a command, its channel is worked, in so many
/// turns at most.
pub(crate) fn read<K: ChannelPort>(
    running: &mut Module<K>,
    line: u64,
    turns: u64,
) -> Result<LineRead, ReadRefusal>
    ensures comes { ComesAlone K.ChannelPort
        (ReadsLine turns (setup_of K.ChannelPort running.old) line result)
        running.old running.new }
    ensures stored { SameStored K.ChannelPort running.old running.new }
    ensures setup { setup_of K.ChannelPort running.new ≡ setup_of K.ChannelPort running.old }
{
    let channel = channel_of(running, line);
    match running.read(line) {
        Ok(Got::Now(bytes)) => Ok(LineRead::Content(bytes)),
        Ok(Got::Later(ticket)) => Ok(await_read(running, channel, ticket, turns)),
        Err(refusal) => Err(refusal),
    }
}
