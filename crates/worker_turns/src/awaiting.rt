// A read that waits.
ghost use Rattle.worker_turns.specs.Lookouts.{Awaits};

use crate::lookout::Lookout;
use arm_state::ReadRefusal;
use channel_port::{Collected, Ticket};
use line_memory::Line;
use std::sync::Wait;

/// A line as it was read after the first `at` accepted writes.
#[derive(Clone, Copy, Debug, PartialEq, Eq)]
pub struct Seen {
    pub line: u64,
    pub data: Line,
    pub at: u64,
}

/// Looks for what there is for a ticket until its read was answered, and waits between two looks: the line, its bytes, and how many
/// writes were accepted before it. Where there is nothing any more it is closed.
pub fn await_read<L: Lookout, R: Wait>(
    rt: &R,
    lookout: &mut L,
    ticket: Ticket,
) -> Result<Seen, ReadRefusal>
    ensures { Awaits L.Lookout ticket result lookout.old lookout.new }
{
    for _ in rt.forever() {
        match lookout.look(ticket) {
            Collected::Data { line, bytes, at } => {
                return Ok(Seen {
                    line,
                    data: bytes,
                    at,
                });
            }
            Collected::Pending => lookout.wait(),
            Collected::Unknown => return Err(ReadRefusal::Closed),
        }
    }
    unreachable!()
}
