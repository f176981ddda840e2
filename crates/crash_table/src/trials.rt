// Scripts that are stopped and restored.
ghost use Rattle.std.specs.Prelude.{◌≡◌, [], length, All, IfOk, IfErr, IfSome};
ghost use Rattle.ddr4_timing.specs.Limits.{lines_of};
ghost use Rattle.slot_store.specs.Slots.{device_size};
ghost use Rattle.nv_script.specs.Line.{NamesChannelOf};
ghost use Rattle.nv_script.specs.declared.reading.ScriptFault.TheVariants.{Memory};
ghost use Rattle.script_runner.specs.Ended.{IsKeptOf, nothing};
ghost use Rattle.script_runner.specs.Story.{AreAllAnswered};
ghost use Rattle.crash_table.specs.Counting.{complete_ones, most_missing};
ghost use Rattle.crash_table.specs.Outcomes.{AreTried, IsFoundOf, IsOutcomeOf, IsRestoreOf};
ghost use Rattle.crash_table.specs.Tables.{TellsEach};

use crate::answers::{Answers, told_after};
use crate::outcome::{Found, Outcome};
use crate::script::Script;
use crate::table::Table;
use crate::tried::Tried;
use interleave_map::{Interleaving, ReadyMap};
use nv_profile::Profile;
use nv_script::{Answer, ScriptFault, ScriptLine};
use nv_session::Session;
use save_device::{MemoryDevice, Pick};
use script_runner::{CommandBook, Wiring, do_lines_kept, restore_answer};
use std::alloc::Global;

mod stopping;

/// Who is told how far trials are.
pub trait Progress {
    /// So many of the lines are done.
    fn tell(&mut self, done: usize, lines: usize);
}

/// The trials of a profile. The lines before a stop are run once, on a device of zero bytes; each stop goes on from a copy of the session
/// behind them, and what it leaves by each pick is restored for itself.
#[derive(Clone, Copy, Drop)]
pub struct Trials<'p> {
    alloc: Global,
    profile: &'p Profile,
}

impl<'p> Trials<'p> {
    /// Of this profile.
    pub fn new(alloc: Global, profile: &'p Profile) -> Trials<'p>
        ensures { result.profile.now ≡ profile.now }
    {
        Trials { alloc, profile }
    }

    // A ready-made map of the profile.
    fn map(&self, interleaving: Interleaving) -> ReadyMap
        ensures { result.checked ≡ self.now.profile.now.checked }
    {
        ReadyMap {
            interleaving,
            checked: self.profile.checked,
        }
    }

    /// The answers to lines, from the first on. Refused only where there is no memory.
    pub fn answers(&self, lines: &[ScriptLine]) -> Result<Vec<Answer>, ScriptFault>
        requires { All (NamesChannelOf self.now.profile.now.checked.geometry) lines.now }
        ensures answered { IfOk result (λ answers. AreAllAnswered
            (lines_of self.now.profile.now.checked.geometry) lines.now [] answers.items) }
        ensures fault { IfErr result (λ fault. fault ≡ Memory) }
    {
        self.answers_kept(lines, &mut CommandBook::closed(self.alloc))
    }

    /// The same, with the commands of the lines' lives for a new book: of as many lives as the answers tell to begin.
    pub fn answers_kept(
        &self,
        lines: &[ScriptLine],
        book: &mut CommandBook,
    ) -> Result<Vec<Answer>, ScriptFault>
        requires lines { All (NamesChannelOf self.now.profile.now.checked.geometry) lines.now }
        requires book { IfSome book.old (λ kept. kept ≡ nothing) }
        ensures answered { IfOk result (λ answers. AreAllAnswered
            (lines_of self.now.profile.now.checked.geometry) lines.now [] answers.items) }
        ensures kept { IfOk result (λ answers. IfSome book.new
            (IsKeptOf lines.now [] answers.items)) }
        ensures fault { IfErr result (λ fault. fault ≡ Memory) }
    {
        let lines_map = self.map(Interleaving::Lines);
        let xor_map = self.map(Interleaving::Xor);
        let mut answers = Answers::new(self.alloc);
        let ran = do_lines_kept(
            self.alloc,
            self.profile,
            lines,
            &lines_map,
            &xor_map,
            &mut answers,
            book,
        );
        match ran {
            Ok(_) => Ok(answers.taken),
            // answers that are kept give out only where memory does
            Err(_) => Err(ScriptFault::Memory),
        }
    }

    // What a restore answers on a device that a stop left with these bytes.
    fn restore(&self, bytes: Vec<u8>) -> Result<Answer, ScriptFault>
        requires { length bytes.items
            ≡ device_size (lines_of self.now.profile.now.checked.geometry) }
        ensures restores { IfOk result (IsRestoreOf
            (lines_of self.now.profile.now.checked.geometry) bytes.items) }
        ensures fault { IfErr result (λ fault. fault ≡ Memory) }
    {
        let lines_map = self.map(Interleaving::Lines);
        let xor_map = self.map(Interleaving::Xor);
        let wiring = Wiring::new(&lines_map, &xor_map, self.profile);
        let device = MemoryDevice::new(self.alloc, bytes)?;
        let mut session = Session::over(device, self.profile, wiring);
        Ok(restore_answer(session.restore(self.alloc, Pick::Old, None)))
    }

    // What a restore finds on such a device, where so many writes were told to be persistent.
    fn found(&self, bytes: Vec<u8>, told: u64) -> Result<Outcome, ScriptFault>
        requires { length bytes.items
            ≡ device_size (lines_of self.now.profile.now.checked.geometry) }
        ensures found { IfOk result (IsFoundOf
            (lines_of self.now.profile.now.checked.geometry) bytes.items told) }
        ensures fault { IfErr result (λ fault. fault ≡ Memory) }
    {
        let answer = self.restore(bytes)?;
        Ok(Outcome {
            found: Found::by(&answer),
            told,
        })
    }

    /// What a restore by the pick finds behind lines. Refused only where there is no memory.
    pub fn outcome(&self, lines: &[ScriptLine], pick: Pick) -> Result<Outcome, ScriptFault>
        requires { All (NamesChannelOf self.now.profile.now.checked.geometry) lines.now }
        ensures found { IfOk result (IsOutcomeOf
            (lines_of self.now.profile.now.checked.geometry) lines.now pick) }
        ensures fault { IfErr result (λ fault. fault ≡ Memory) }
    {
        let mut whole = lines.to_vec(self.alloc)?;
        whole.extend_from_slice(&[ScriptLine::Restore {
            pick: Some(pick),
            map: None,
        }])?;
        let answers = self.answers(&whole)?;
        let Some((restore, before)) = answers.split_last() else {
            return Err(ScriptFault::Memory);
        };
        Ok(Outcome {
            found: Found::by(restore),
            told: told_after(None, before).unwrap_or(0),
        })
    }

    /// Each stop of a line, with each pick: darkness behind each number of device calls that the line makes, darkness behind the
    /// line, and a loss of mains behind it. None that is told Complete lacks a write that was told to be persistent. Refused only
    /// where there is no memory.
    pub fn tried(&self, before: &[ScriptLine], line: ScriptLine) -> Result<Vec<Tried>, ScriptFault>
        requires before { All (NamesChannelOf self.now.profile.now.checked.geometry) before.now }
        requires line { NamesChannelOf self.now.profile.now.checked.geometry line }
        ensures tried { IfOk result (λ tried. AreTried
            (lines_of self.now.profile.now.checked.geometry) before.now line tried.items) }
        ensures complete { IfOk result (λ tried. most_missing (complete_ones tried.items) ≡ 0) }
        ensures fault { IfErr result (λ fault. fault ≡ Memory) }
    {
        let lines_map = self.map(Interleaving::Lines);
        let xor_map = self.map(Interleaving::Xor);
        let wiring = Wiring::new(&lines_map, &xor_map, self.profile);
        let standing = self.done(wiring, before)?;
        self.tried_behind(&standing, line)
    }

    /// Each stop of each line of a script, the lines before it run first. None that is told Complete lacks a write that was told to
    /// be persistent. Refused only where there is no memory.
    pub fn table<P: Progress>(
        &self,
        script: &Script,
        progress: &mut P,
    ) -> Result<Table, ScriptFault>
        requires { All (NamesChannelOf self.now.profile.now.checked.geometry)
            script.now.lines.items }
        ensures tells { IfOk result (TellsEach
            (lines_of self.now.profile.now.checked.geometry) script.now) }
        ensures complete { IfOk result (λ table. table.counts.complete ≡ 0) }
        ensures fault { IfErr result (λ fault. fault ≡ Memory) }
    {
        let lines_map = self.map(Interleaving::Lines);
        let xor_map = self.map(Interleaving::Xor);
        let wiring = Wiring::new(&lines_map, &xor_map, self.profile);
        let standing = self.done(wiring, &[])?;
        self.table_behind(standing, script, progress)
    }
}
