// What a line of a script asks of a module that takes several of its calls.
ghost use Rattle.std.specs.Prelude.{◌≡◌, ◌<◌};
ghost use Rattle.module_core.specs.Stands.{HasChannel, HasDevice, assembly, lines_of_module, setup_of};
ghost use Rattle.nv_session.specs.Coming.{Comes, ComesAlone};
ghost use Rattle.nv_session.specs.Living.{SameStored};
ghost use Rattle.nv_session.specs.ReadTurns.{AwaitsLine, ReadsLine};
ghost use Rattle.nv_session.specs.SaveTurns.{MakesSave, WorksBehind, WorksEach, is_underway};
ghost use Rattle.nv_session.specs.Turns.{MakesOneStep};

use arm_state::{ArmRefusal, ReadRefusal};
use channel_port::{ChannelPort, Collected, Got, Ticket};
use energy_budget::Energy;
use line_memory::Line;
use module_core::Module;
use nv_machine::StepReply;
use save_device::SaveDevice;

/// How often the channel of a read is worked before the read is left waiting.
const READ_TURNS: u64 = 64;

/// How many turns a save may take.
const SAVE_TURNS: u64 = 4096;

/// What is seen of a line.
#[derive(Clone, Copy, Debug, PartialEq, Eq)]
pub enum LineSeen {
    Content(Line),
    /// The read waits for a command of its channel.
    Waiting,
}

// The channel of a line; 0 where there is no such line.
fn channel_of<K: ChannelPort>(running: &Module<K>, line: u64) -> u64
    ensures known { HasChannel K.ChannelPort running.now result }
    ensures is { line < lines_of_module K.ChannelPort running.now
        → result ≡ (setup_of K.ChannelPort running.now).shape.channel_of line }
{
    match running.channels().locate(line) {
        Some(place) => place.channel,
        None => 0,
    }
}

// Works the channel of a read that waits, until it has its bytes or the channel is idle.
fn await_read<K: ChannelPort>(running: &mut Module<K>, channel: u64, ticket: Ticket) -> LineSeen
    requires { HasChannel K.ChannelPort running.old channel }
    ensures comes { channel ≡ ticket.channel
        → ComesAlone K.ChannelPort (AwaitsLine ticket result) running.old running.new }
    ensures stored { SameStored K.ChannelPort running.old running.new }
    ensures setup { setup_of K.ChannelPort running.new ≡ setup_of K.ChannelPort running.old }
{
    for _turn in 0..READ_TURNS {
        match running.collect(ticket) {
            Collected::Data { bytes, .. } => return LineSeen::Content(bytes),
            _ => {
                let Some(_) = running.work(channel) else {
                    return LineSeen::Waiting;
                };
            }
        }
    }
    match running.collect(ticket) {
        Collected::Data { bytes, .. } => LineSeen::Content(bytes),
        _ => LineSeen::Waiting,
    }
}

/// Reads a line of the memory after all accepted writes. Where its bytes are to come with a command, its channel is worked.
pub fn read<K: ChannelPort>(running: &mut Module<K>, line: u64) -> Result<LineSeen, ReadRefusal>
    ensures comes { ComesAlone K.ChannelPort
        (ReadsLine (setup_of K.ChannelPort running.old) line result) running.old running.new }
    ensures stored { SameStored K.ChannelPort running.old running.new }
    ensures setup { setup_of K.ChannelPort running.new ≡ setup_of K.ChannelPort running.old }
{
    let channel = channel_of(running, line);
    match running.read(line) {
        Ok(Got::Now(bytes)) => Ok(LineSeen::Content(bytes)),
        Ok(Got::Later(ticket)) => Ok(await_read(running, channel, ticket)),
        Err(refusal) => Err(refusal),
    }
}

/// Makes a step of the save that runs, or begins one and makes its first step.
pub fn step<K: ChannelPort, D: SaveDevice, E: Energy>(
    running: &mut Module<K>,
    device: &mut D,
    energy: &mut E,
) -> Result<StepReply, ArmRefusal>
    requires size { HasDevice K.ChannelPort running.old (D.state device.old) }
    ensures comes { Comes K.ChannelPort (MakesOneStep result)
        (assembly running.old (D.state device.old) (E.gauge energy.old))
        (assembly running.new (D.state device.new) (E.gauge energy.new)) }
    ensures setup { setup_of K.ChannelPort running.new ≡ setup_of K.ChannelPort running.old }
    ensures size { HasDevice K.ChannelPort running.new (D.state device.new) }
{
    match running.save_step(device, energy) {
        StepReply::NoSave => match running.save_begin() {
            Ok(()) => Ok(running.save_step(device, energy)),
            Err(refusal) => Err(refusal),
        },
        reply => Ok(reply),
    }
}

// One work on each channel.
fn work_each<K: ChannelPort>(running: &mut Module<K>, channels: u64)
    requires { channels ≡ (setup_of K.ChannelPort running.old).shape.channels }
    ensures comes { ComesAlone K.ChannelPort (WorksEach channels) running.old running.new }
    ensures setup { setup_of K.ChannelPort running.new ≡ setup_of K.ChannelPort running.old }
{
    for channel in 0..channels {
        // a channel may have no command at this turn
        let _ = running.work(channel);
    }
}

// Whether a save has a further turn after this reply.
fn is_underway(reply: StepReply) -> bool
    ensures { result ≡ is_underway reply }
{
    matches!(
        reply,
        StepReply::Did(_) | StepReply::Retry | StepReply::Waiting
    )
}

// Works each channel where a step had to wait.
fn work_where_waiting<K: ChannelPort>(running: &mut Module<K>, channels: u64, reply: StepReply)
    requires { channels ≡ (setup_of K.ChannelPort running.old).shape.channels }
    ensures comes { ComesAlone K.ChannelPort (WorksBehind channels reply)
        running.old running.new }
    ensures setup { setup_of K.ChannelPort running.new ≡ setup_of K.ChannelPort running.old }
{
    if matches!(reply, StepReply::Waiting) {
        work_each(running, channels);
    }
}

/// Makes a whole save, or the rest of one that runs: a step in each turn, or where that waits a work on each channel. It
/// answers the step that ended it, or `Waiting` where the turns don't suffice.
pub fn save<K: ChannelPort, D: SaveDevice, E: Energy>(
    running: &mut Module<K>,
    channels: u64,
    device: &mut D,
    energy: &mut E,
) -> Result<StepReply, ArmRefusal>
    requires channels { channels ≡ (setup_of K.ChannelPort running.old).shape.channels }
    requires size { HasDevice K.ChannelPort running.old (D.state device.old) }
    ensures comes { Comes K.ChannelPort (MakesSave channels result)
        (assembly running.old (D.state device.old) (E.gauge energy.old))
        (assembly running.new (D.state device.new) (E.gauge energy.new)) }
    ensures setup { setup_of K.ChannelPort running.new ≡ setup_of K.ChannelPort running.old }
    ensures size { HasDevice K.ChannelPort running.new (D.state device.new) }
{
    let mut reply = match step(running, device, energy) {
        Ok(reply) => reply,
        Err(refusal) => return Err(refusal),
    };
    for _turn in 1..SAVE_TURNS {
        if !is_underway(reply) {
            return Ok(reply);
        }
        work_where_waiting(running, channels, reply);
        reply = running.save_step(device, energy);
    }
    Ok(reply)
}
