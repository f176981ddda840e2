// The commands of a trace that can be drawn.
ghost use Rattle.std.specs.Prelude.{◌≡◌, ◌↔◌, ℕ, List, [], Option, false, IfOk, IsTrue};
ghost use Rattle.command_trace.specs.Traces.{AreCommandsOf, HasRead};
ghost use Rattle.ddr4_timing.specs.Lawful.{IsInGeometry};
ghost use Rattle.schedule_drawing.specs.Entries.{AreInTime, AreFoundIn, has_closing};

use command_trace::{ChannelCommand, Located, NoCommand, TraceFault, TraceReader};
use ddr4_timing::command::Command;
use ddr4_timing::timing::Geometry;
use std::alloc::Global;
use std::io::Read;

fn lies_in(g: &Geometry, x: &Command) -> bool
    ensures { IsTrue result ↔ IsInGeometry g.now x.now }
{
    match *x {
        Command::Act { at, row } => at.lies_in(g) && row < g.rows,
        Command::Rd { at, column } => at.lies_in(g) && column < g.columns,
        Command::Wr { at, column } => at.lies_in(g) && column < g.columns,
        Command::Pre { at } => at.lies_in(g),
        Command::PreAll { rank } | Command::Ref { rank } | Command::Sre { rank } => rank < g.ranks,
    }
}

/// The least clock that each channel's next command may have.
#[derive(Clone, Copy)]
struct Rising {
    least: [u64; 8],
}

impl Rising {
    // Does the command's clock rise in its channel?
    fn take(&mut self, entry: &ChannelCommand) -> bool {
        let channel = entry.channel;
        let clock = entry.command.clock;
        if channel >= 8 || clock < self.least[channel as usize] {
            return false;
        }
        self.least[channel as usize] = clock.saturating_add(1);
        true
    }
}

/// Reads a trace to its end. A line is refused by its number where its command lies outside the geometry, or where its clock
/// isn't behind the one before it in its channel.
pub fn read_found<R: Read + Drop>(
    alloc: Global,
    reader: &mut TraceReader<R>,
    g: &Geometry,
) -> Result<Vec<Located>, TraceFault>
    requires { reader.old.given.items ≡ [] }
    ensures whole { IfOk result (λ found. found.items ≡ reader.new.given.items) }
    ensures reads { (bytes : Option (List ℕ)) → HasRead R.remaining bytes reader.old [] →
        IfOk result (λ found. AreCommandsOf reader.old.form bytes found.items) }
    ensures lie { IfOk result (λ found. AreFoundIn g.now found.items) }
    ensures early { IfOk result (λ found. AreInTime found.items) }
{
    let mut commands = Vec::new(alloc);
    let mut rising = Rising { least: [0; 8] };
    for _ in 0..u64::MAX {
        let Some(found) = reader.next()? else {
            return Ok(commands);
        };
        if !lies_in(g, &found.entry.command.cmd) {
            return Err(refused(found.line, NoCommand::Place));
        }
        if !rising.take(&found.entry) {
            return Err(refused(found.line, NoCommand::Order));
        }
        commands.extend_from_slice(&[found])?;
    }
    // more commands than can be counted
    Err(TraceFault::Reader)
}

/// Is a command of these with auto-precharge?
pub fn has_closing(found: &[Located]) -> bool
    ensures { result ≡ has_closing found.now }
{
    found.iter().any(|it| it.closes)
}

fn refused(line: u64, why: NoCommand) -> TraceFault {
    TraceFault::Line { line, why }
}
