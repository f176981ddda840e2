// The profiles of long runs, and the text of their commands.
use ddr4_timing::command::{Command, Stamped};
use ddr4_timing::profiles::SMALL;
use ddr4_timing::timing::Geometry;
use std::fmt::Write;
use std::process::Abort;

pub(crate) const FOUR_RANKS: Geometry = Geometry { ranks: 4, ..SMALL };

/// The commands as text, one a line.
pub(crate) fn text<R: Abort + AllocGlobal>(rt: &R, commands: &[Stamped]) -> String {
    let mut text = String::new(rt.alloc());
    for command in commands {
        writeln!(text, "{command}").expect(rt, "memory");
    }
    text
}

/// Commands, each so many clocks behind a start.
pub(crate) fn behind<R: Abort + AllocGlobal>(
    rt: &R,
    start: u64,
    commands: &[(u64, Command)],
) -> Vec<Stamped> {
    let mut list = Vec::new(rt.alloc());
    for (later, cmd) in commands {
        let clock = start.saturating_add(*later);
        list.push(Stamped { clock, cmd: *cmd }).expect(rt, "memory");
    }
    list
}
