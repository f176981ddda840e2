// Stops of a line, each behind a copy of the session there.
ghost use Rattle.std.specs.Prelude.{◌≡◌, [], map, All, IfOk, IfErr, IfSome};
ghost use Rattle.ddr4_timing.specs.Limits.{lines_of};
ghost use Rattle.interleave_map.specs.declared.ready.Interleaving.{Interleaving};
ghost use Rattle.save_device.specs.declared.memory.Pick.{Pick};
ghost use Rattle.nv_script.specs.Line.{NamesChannelOf};
ghost use Rattle.nv_script.specs.declared.reading.ScriptFault.TheVariants.{Memory};
ghost use Rattle.nv_session.specs.Living.{IsShapeFor};
ghost use Rattle.crash_table.specs.Behinds.{IsBehind};
ghost use Rattle.crash_table.specs.Outcomes.{AreTried, AreTriedDark, IsOutcomeOf, IsTried, MayEnd, tried_at};
ghost use Rattle.crash_table.specs.Standings.{Stands};
ghost use Rattle.crash_table.specs.Stops.{picks, stopped_lines, with_picks};
ghost use Rattle.crash_table.specs.Tables.{TellsEach};

use crate::answers::Answers;
use crate::left::Left;
use crate::outcome::{Found, Outcome};
use crate::script::Script;
use crate::standing::Standing;
use crate::stop::{PICKS, Stop};
use crate::table::Table;
use crate::trials::{Progress, Trials};
use crate::tried::Tried;
use channel_port::ChannelPort;
use nv_script::{ScriptFault, ScriptLine};
use nv_session::Wires;
use same_values::CopyValue;
use save_device::Pick;
use script_runner::answer_line;

// A session that was stopped, and what the stop may leave of its device, where it is known.
#[derive(Drop)]
struct Behind<K: ChannelPort, A: Wires<K>> {
    standing: Standing<K, A>,
    left: Option<Left>,
}

// A stop that was tried with each pick, and whether a fault of the device was told behind it.
#[derive(Drop)]
struct TriedStop {
    tried: Vec<Tried>,
    fails: bool,
}

impl<'p> Trials<'p> {
    // The outcome of all picks, where nothing is unsettled.
    fn outcome_of_all<K, A>(&self, behind: &Behind<K, A>) -> Result<Option<Outcome>, ScriptFault>
    where
        K: ChannelPort + CopyValue + Drop,
        A: Wires<K> + CopyValue + Drop,
        requires { IsBehind self.now.profile.now behind.now }
        ensures found { IfOk result (λ outcome. IfSome outcome (λ outcome. (pick : Pick)
            → IsOutcomeOf (lines_of self.now.profile.now.checked.geometry)
            behind.now.standing.done.items pick outcome)) }
        ensures fault { IfErr result (λ fault. fault ≡ Memory) }
    {
        let Some(left) = &behind.left else {
            return Ok(None);
        };
        if !left.is_settled() {
            return Ok(None);
        }
        let bytes = left.bytes(self.alloc)?;
        Ok(Some(self.found(bytes, behind.standing.told.unwrap_or(0))?))
    }

    // The outcome of a pick. Where its bytes aren't known, a copy of the session itself is restored.
    fn outcome_of<K, A>(&self, behind: &Behind<K, A>, pick: Pick) -> Result<Outcome, ScriptFault>
    where
        K: ChannelPort + CopyValue + Drop,
        A: Wires<K> + CopyValue + Drop,
        requires { IsBehind self.now.profile.now behind.now }
        ensures found { IfOk result (IsOutcomeOf
            (lines_of self.now.profile.now.checked.geometry)
            behind.now.standing.done.items pick) }
        ensures fault { IfErr result (λ fault. fault ≡ Memory) }
    {
        let Some(left) = &behind.left else {
            return self.outcome_at(&behind.standing, pick);
        };
        let Some(bytes) = left.by(self.alloc, pick)? else {
            return self.outcome_at(&behind.standing, pick);
        };
        self.found(bytes, behind.standing.told.unwrap_or(0))
    }

    // The same, where that of all picks may be known.
    fn outcome_by<K, A>(
        &self,
        behind: &Behind<K, A>,
        all: Option<Outcome>,
        pick: Pick,
    ) -> Result<Outcome, ScriptFault>
    where
        K: ChannelPort + CopyValue + Drop,
        A: Wires<K> + CopyValue + Drop,
        requires behind { IsBehind self.now.profile.now behind.now }
        requires all { IfSome all (λ outcome. (pick : Pick) → IsOutcomeOf
            (lines_of self.now.profile.now.checked.geometry)
            behind.now.standing.done.items pick outcome) }
        ensures found { IfOk result (IsOutcomeOf
            (lines_of self.now.profile.now.checked.geometry)
            behind.now.standing.done.items pick) }
        ensures fault { IfErr result (λ fault. fault ≡ Memory) }
    {
        match all {
            Some(outcome) => Ok(outcome),
            None => self.outcome_of(behind, pick),
        }
    }

    // What a restore by the pick finds in a copy of a session.
    fn outcome_at<K, A>(
        &self,
        standing: &Standing<K, A>,
        pick: Pick,
    ) -> Result<Outcome, ScriptFault>
    where
        K: ChannelPort + CopyValue + Drop,
        A: Wires<K> + CopyValue + Drop,
        requires { Stands self.now.profile.now standing.now }
        ensures found { IfOk result (IsOutcomeOf
            (lines_of self.now.profile.now.checked.geometry) standing.now.done.items pick) }
        ensures fault { IfErr result (λ fault. fault ≡ Memory) }
    {
        let mut restored = standing.copy(self.alloc)?;
        let mut answers = Answers::new(self.alloc);
        let restore = ScriptLine::Restore {
            pick: Some(pick),
            map: None,
        };
        // answers that are kept give out only where memory does
        let Ok(()) = answer_line(self.alloc, &mut restored.session, restore, &mut answers) else {
            return Err(ScriptFault::Memory);
        };
        match answers.taken.first() {
            Some(given) => Ok(Outcome {
                found: Found::by(given),
                told: restored.told.unwrap_or(0),
            }),
            None => Err(ScriptFault::Memory),
        }
    }

    // Goes on with a copy of a session by a stop of a line, and reads what the stop may leave.
    fn behind<K, A>(
        &self,
        standing: &Standing<K, A>,
        line: ScriptLine,
        stop: Stop,
    ) -> Result<Behind<K, A>, ScriptFault>
    where
        K: ChannelPort + CopyValue + Drop,
        A: Wires<K> + CopyValue + Drop,
        requires stands { Stands self.now.profile.now standing.now }
        requires line { NamesChannelOf self.now.profile.now.checked.geometry line }
        ensures behind { IfOk result (IsBehind self.now.profile.now) }
        ensures lines { IfOk result (λ behind. behind.standing.done.items
            ≡ stopped_lines standing.now.done.items line stop) }
        ensures fault { IfErr result (λ fault. fault ≡ Memory) }
    {
        let mut standing = standing.copy(self.alloc)?;
        standing.stop(self.alloc, line, stop)?;
        let device = standing.session.copy_of_device(self.alloc)?;
        let left = Left::of(self.alloc, device)?;
        Ok(Behind { standing, left })
    }

    // A stop with each pick.
    fn try_stop<K, A>(
        &self,
        standing: &Standing<K, A>,
        line: ScriptLine,
        stop: Stop,
    ) -> Result<TriedStop, ScriptFault>
    where
        K: ChannelPort + CopyValue + Drop,
        A: Wires<K> + CopyValue + Drop,
        requires stands { Stands self.now.profile.now standing.now }
        requires line { NamesChannelOf self.now.profile.now.checked.geometry line }
        ensures each { IfOk result (λ stopped.
            map tried_at stopped.tried.items ≡ with_picks picks stop) }
        ensures are { IfOk result (λ stopped. All (IsTried
            (lines_of self.now.profile.now.checked.geometry) standing.now.done.items line)
            stopped.tried.items) }
        ensures ends { IfOk result (λ stopped. MayEnd
            (lines_of self.now.profile.now.checked.geometry)
            (stopped_lines standing.now.done.items line stop) stopped.fails) }
        ensures fault { IfErr result (λ fault. fault ≡ Memory) }
    {
        let behind = self.behind(standing, line, stop)?;
        let all = self.outcome_of_all(&behind)?;
        let mut tried = Vec::new(self.alloc);
        for pick in &PICKS {
            let outcome = self.outcome_by(&behind, all, *pick)?;
            tried.extend_from_slice(&[Tried {
                stop,
                pick: *pick,
                outcome,
            }])?;
        }
        Ok(TriedStop {
            tried,
            fails: behind.standing.fails,
        })
    }

    // Darkness behind each number of device calls that a line makes, and behind the line, each with each pick.
    fn tried_dark<K, A>(
        &self,
        standing: &Standing<K, A>,
        line: ScriptLine,
    ) -> Result<Vec<Tried>, ScriptFault>
    where
        K: ChannelPort + CopyValue + Drop,
        A: Wires<K> + CopyValue + Drop,
        requires stands { Stands self.now.profile.now standing.now }
        requires line { NamesChannelOf self.now.profile.now.checked.geometry line }
        ensures dark { IfOk result (λ tried. AreTriedDark
            (lines_of self.now.profile.now.checked.geometry) standing.now.done.items
            line tried.items) }
        ensures fault { IfErr result (λ fault. fault ≡ Memory) }
    {
        let mut tried = Vec::new(self.alloc);
        for calls in 0..u64::MAX {
            let dark = self.try_stop(standing, line, Stop::Dark { calls })?;
            tried.extend_from_slice(&dark.tried)?;
            if !dark.fails {
                return Ok(tried);
            }
        }
        // no line makes so many calls
        Err(ScriptFault::Memory)
    }

    /// Each stop of a line behind those of a session, with each pick.
    pub(crate) fn tried_behind<K, A>(
        &self,
        standing: &Standing<K, A>,
        line: ScriptLine,
    ) -> Result<Vec<Tried>, ScriptFault>
    where
        K: ChannelPort + CopyValue + Drop,
        A: Wires<K> + CopyValue + Drop,
        requires stands { Stands self.now.profile.now standing.now }
        requires line { NamesChannelOf self.now.profile.now.checked.geometry line }
        ensures tried { IfOk result (λ tried. AreTried
            (lines_of self.now.profile.now.checked.geometry) standing.now.done.items
            line tried.items) }
        ensures fault { IfErr result (λ fault. fault ≡ Memory) }
    {
        let mut tried = self.tried_dark(standing, line)?;
        let lost = self.try_stop(standing, line, Stop::Loss)?;
        tried.extend_from_slice(&lost.tried)?;
        Ok(tried)
    }

    /// The table of a script, by a session behind none of its lines.
    pub(crate) fn table_behind<K, A, P>(
        &self,
        mut standing: Standing<K, A>,
        script: &Script,
        progress: &mut P,
    ) -> Result<Table, ScriptFault>
    where
        K: ChannelPort + CopyValue + Drop,
        A: Wires<K> + CopyValue + Drop,
        P: Progress,
        requires lines { All (NamesChannelOf self.now.profile.now.checked.geometry)
            script.now.lines.items }
        requires stands { Stands self.now.profile.now standing }
        requires none { standing.done.items ≡ [] }
        ensures tells { IfOk result (TellsEach
            (lines_of self.now.profile.now.checked.geometry) script.now) }
        ensures complete { IfOk result (λ table. table.counts.complete ≡ 0) }
        ensures fault { IfErr result (λ fault. fault ≡ Memory) }
    {
        let mut table = Table::new(self.alloc);
        for place in 0..script.lines.len() {
            progress.tell(place, script.lines.len());
            let line = script.lines[place];
            let tried = self.tried_behind(&standing, line)?;
            table.add(script.number(place), &tried)?;
            standing.go_on(self.alloc, line)?;
        }
        Ok(table)
    }

    /// A session behind these lines.
    pub(crate) fn done<K, A>(
        &self,
        wires: A,
        lines: &[ScriptLine],
    ) -> Result<Standing<K, A>, ScriptFault>
    where
        K: ChannelPort + CopyValue + Drop,
        A: Wires<K> + CopyValue + Drop,
        requires lines { All (NamesChannelOf self.now.profile.now.checked.geometry) lines.now }
        requires fits { (map : Interleaving)
            → IsShapeFor self.now.profile.now (A.shape wires map) }
        requires checked { A.checked wires ≡ self.now.profile.now.checked }
        ensures stands { IfOk result (Stands self.now.profile.now) }
        ensures done { IfOk result (λ standing. standing.done.items ≡ lines.now) }
        ensures fault { IfErr result (λ fault. fault ≡ Memory) }
    {
        let mut standing = Standing::new(self.alloc, self.profile, wires)?;
        for line in lines {
            standing.go_on(self.alloc, *line)?;
        }
        Ok(standing)
    }
}
