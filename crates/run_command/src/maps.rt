// Scripts over closures of both ready-made maps.
ghost use Rattle.std.specs.Prelude.{◌≡◌, ◌<◌, IfErr, IfSome, OnOk};
ghost use Rattle.ddr4_timing.specs.Limits.{lines_of};
ghost use Rattle.ddr4_timing.specs.Places.{LiesIn};
ghost use Rattle.interleave_map.specs.Ready.{place_by};
ghost use Rattle.run_command.specs.Whole.{RunsWhole};
ghost use Rattle.script_runner.specs.Ended.{nothing};
ghost use Rattle.script_runner.specs.Scripts.{IsBadText};
ghost use Rattle.script_runner.specs.Story.{GoesOn};

use crate::printer::AnswerPrinter;
use ddr4_timing::place::Place;
use interleave_map::line_map::LineMap;
use interleave_map::map::Map;
use interleave_map::{Interleaving, ReadyMap};
use nv_profile::Profile;
use nv_script::{ScriptFault, read_script};
use save_device::MemoryDevice;
use script_runner::{CommandBook, Report, do_lines_kept};
use std::alloc::Global;
use std::io::Write;

/// Runs a script over both ready-made maps of the profile's geometry, and writes each answer as a line. Answers the device as
/// the script left it. A script with a bad line writes nothing.
pub fn run_on_maps<W: Write>(
    alloc: Global,
    profile: &Profile,
    script: &[u8],
    writer: &mut W,
) -> Result<MemoryDevice, ScriptFault> {
    let mut printer = AnswerPrinter::new(alloc, false, writer);
    report_on_maps(
        alloc,
        profile,
        script,
        &mut printer,
        &mut CommandBook::closed(alloc),
    )
}

/// The same, with the answers to a report, and the commands of the script's lives to a new book.
pub fn report_on_maps<R: Report>(
    alloc: Global,
    profile: &Profile,
    script: &[u8],
    report: &mut R,
    book: &mut CommandBook,
) -> Result<MemoryDevice, ScriptFault>
    requires { IfSome book.old (λ kept. kept ≡ nothing) }
    ensures whole { OnOk result (RunsWhole profile.now script.now
        (R.answers report.old) (R.answers report.new)) }
    ensures continued { OnOk result (GoesOn R.continues report.old report.new) }
    ensures bad { IfErr result (IsBadText profile.now.checked.geometry script.now) }
{
    let lines = read_script(alloc, script, &profile.checked.geometry)?;
    let ways = |ready: ReadyMap| {
        let split = move |line: u64| -> Place
            requires { line < lines_of ready.checked.geometry }
            ensures { result ≡ place_by ready.interleaving ready.checked.geometry line }
        { ready.place(line) };
        let join = move |place: Place| -> u64
            requires { LiesIn ready.checked.geometry place }
            ensures below { result < lines_of ready.checked.geometry }
            ensures back { place_by ready.interleaving ready.checked.geometry result ≡ place }
        { ready.line(place) };
        (split, join)
    };
    let by_lines = ReadyMap {
        interleaving: Interleaving::Lines,
        checked: profile.checked,
    };
    let by_xor = ReadyMap {
        interleaving: Interleaving::Xor,
        checked: profile.checked,
    };
    let (split, join) = ways(by_lines);
    let lines_map = Map::new(split, join, by_lines, &profile.checked);
    let (split, join) = ways(by_xor);
    let xor_map = Map::new(split, join, by_xor, &profile.checked);
    do_lines_kept(alloc, profile, &lines, &lines_map, &xor_map, report, book)
}
