// What both locks know of a channel is noted at both seats.
ghost use Rattle.std.specs.Prelude.{◌≡◌, ◌≤◌, length, IfErr, IfOk};
ghost use Rattle.line_memory.specs.Parts.{AreBefore, numbered};
ghost use Rattle.channel_log.specs.declared.entry.LogEntry.TheVariants.{Looked, Wrote};
ghost use Rattle.channel_log.specs.Log.{log_tells, note_of};
ghost use Rattle.channel_log.specs.Seats.{AreOf, IsNoted};
ghost use Rattle.channel_locks.specs.Stands.{queue_of};

use arm_state::WriteRefusal;
use channel_locks::Part;
use channel_log::{ChannelLogs, ChannelSeat, FrontSeat, Standing};
use channel_port::ChannelPort;
use line_memory::{Numbered, Write};
use nv_machine::Accepted;

/// Notes what waits in a channel's part, which is at most 64 writes. Its caller picks the name of it.
pub fn look_at<W: Standing, K: ChannelPort>(
    logs: &ChannelLogs,
    known: &mut FrontSeat,
    seat: &mut ChannelSeat,
    part: &Part<K>,
)
    requires waits { W.waits ≡ (K.view part.now.port).waits }
    requires tables { AreOf logs.now known.old seat.old }
    ensures noted { IsNoted (note_of Looked (K.view part.now.port).waits)
        known.old seat.old known.new seat.new }
    ensures most { length (queue_of K.ChannelPort part.now) ≤ 64 }
{
    let _waiting = part.pending();
    known.look::<W>(logs, seat);
}

/// Notes a write where it was accepted, with what waits in the channel's part then. Its caller picks the name of that.
pub fn note_write<W: Standing, K: ChannelPort>(
    logs: &ChannelLogs,
    known: &mut FrontSeat,
    seat: &mut ChannelSeat,
    part: &Part<K>,
    write: Write,
    reply: Result<Accepted, WriteRefusal>,
)
    requires waits { W.waits ≡ (K.view part.now.port).waits }
    requires tables { AreOf logs.now known.old seat.old }
    requires number { IfOk reply (λ accepted.
        AreBefore accepted.number (log_tells seat.old.log).written) }
    ensures noted { IfOk reply (λ accepted.
        IsNoted (note_of (Wrote (numbered accepted.number write)) (K.view part.now.port).waits)
        known.old seat.old known.new seat.new) }
    ensures known { IfErr reply (λ refusal. known.new ≡ known.old) }
    ensures seat { IfErr reply (λ refusal. seat.new ≡ seat.old) }
    ensures most { length (queue_of K.ChannelPort part.now) ≤ 64 }
{
    let _waiting = part.pending();
    if let Ok(accepted) = reply {
        let number = accepted.number;
        known.write::<W>(logs, seat, Numbered { number, write });
    }
}
