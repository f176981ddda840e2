// The schedule of a trace.
ghost use Rattle.std.specs.Prelude.{◌≡◌, ℕ, List, [], Option, IfOk};
ghost use Rattle.command_trace.specs.Traces.{AreCommandsOf, HasRead};
ghost use Rattle.schedule_drawing.specs.Traces.{DrawsTrace};

use crate::entries::{has_closing, read_found};
use crate::flaws::flaws_of;
use crate::schedule::Schedule;
use crate::stood_for::entries_drawn;
use command_trace::{TraceFault, TraceReader};
use ddr4_timing::timing::CommandRules;
use std::alloc::Global;
use std::io::Read;

/// The schedule of a trace, which is read to its end: its commands, and those among them that break a rule. Of a trace with
/// auto-precharge it is that of the commands that the trace stands for, which has to be lawful.
pub fn trace_schedule<R: Read + Drop>(
    alloc: Global,
    rules: &CommandRules,
    reader: &mut TraceReader<R>,
) -> Result<Schedule, TraceFault>
    requires { reader.old.given.items ≡ [] }
    ensures draws { IfOk result (DrawsTrace rules.now reader.new.given.items) }
    ensures reads { (bytes : Option (List ℕ)) → HasRead R.remaining bytes reader.old [] →
        IfOk result (λ _. AreCommandsOf reader.old.form bytes reader.new.given.items) }
{
    let found = read_found(alloc, reader, &rules.geometry)?;
    let entries = entries_drawn(alloc, rules, &found)?;
    let mut schedule = Schedule::new(alloc);
    schedule.add(alloc, &rules.timing, 0, &entries)?;
    if !has_closing(&found) {
        schedule.flaws = flaws_of(alloc, rules, &entries)?;
    }
    Ok(schedule)
}
