// A session between two lines of a script.
ghost use Rattle.std.specs.Prelude.{◌≡◌, ◌++◌, ◌∷◌, [], IfErr, IfOk, OnOk};
ghost use Rattle.interleave_map.specs.declared.ready.Interleaving.{Interleaving};
ghost use Rattle.nv_profile.specs.declared.profile.Profile.{Profile};
ghost use Rattle.nv_script.specs.Line.{NamesChannelOf};
ghost use Rattle.nv_script.specs.declared.reading.ScriptFault.TheVariants.{Memory};
ghost use Rattle.nv_session.specs.Living.{IsShapeFor};

use crate::answers::{Answers, ends_behind, told_after};
use crate::stop::Stop;
use channel_port::ChannelPort;
use ghost_trace::Trace;
use nv_profile::Profile;
use nv_script::{ScriptFault, ScriptLine};
use nv_session::{Session, Wires};
use same_values::CopyValue;
use script_runner::answer_line;
use std::alloc::{AllocError, Global};

/// A session behind lines of a script, which clauses read as `done`: how many writes their answers told to be persistent, where that is
/// known, and whether the last answer told a fault of the device.
#[derive(Drop)]
pub(crate) struct Standing<K: ChannelPort, A: Wires<K>> {
    pub(crate) session: Session<K, A>,
    pub(crate) done: Trace<ScriptLine>,
    pub(crate) told: Option<u64>,
    pub(crate) fails: bool,
}

impl<K: ChannelPort + CopyValue + Drop, A: Wires<K> + CopyValue + Drop> Standing<K, A> {
    ghost use Rattle.crash_table.specs.Standings.{GoesOnBy, Stands};
    ghost use Rattle.crash_table.specs.Stops.{stopped};

    /// Behind no line, on a device of zero bytes.
    pub(crate) fn new(
        alloc: Global,
        profile: &Profile,
        wires: A,
    ) -> Result<Standing<K, A>, AllocError>
        requires fits { (map : Interleaving) → IsShapeFor profile.now (A.shape wires map) }
        requires checked { A.checked wires ≡ profile.now.checked }
        ensures stands { IfOk result (Stands profile.now) }
        ensures none { IfOk result (λ standing. standing.done.items ≡ []) }
    {
        Ok(Standing {
            session: Session::new(alloc, profile, wires)?,
            done: Trace::new(),
            told: None,
            fails: false,
        })
    }

    /// A second one behind the same lines. Refused only where there is no memory.
    pub(crate) fn copy(&self, alloc: Global) -> Result<Standing<K, A>, AllocError>
        ensures stands { (profile : Profile) → Stands profile self.now
            → IfOk result (Stands profile) }
        ensures done { IfOk result (λ copy. copy.done.items ≡ self.now.done.items) }
    {
        Ok(Standing {
            session: self.session.copy(alloc)?,
            done: self.done.copy(),
            told: self.told,
            fails: self.fails,
        })
    }

    /// Goes on by a line. Refused only where there is no memory.
    pub(crate) fn go_on(&mut self, alloc: Global, line: ScriptLine) -> Result<(), ScriptFault>
        requires { NamesChannelOf self.old.session.profile.checked.geometry line }
        ensures goes { OnOk result (GoesOnBy (line ∷ []) self.old self.new) }
        ensures fault { IfErr result (λ fault. fault ≡ Memory) }
    {
        let mut answers = Answers::new(alloc);
        // answers that are kept give out only where memory does
        let Ok(()) = answer_line(alloc, &mut self.session, line, &mut answers) else {
            return Err(ScriptFault::Memory);
        };
        self.done.note(&line);
        self.told = told_after(self.told, &answers.taken);
        self.fails = ends_behind(self.fails, &answers.taken);
        Ok(())
    }

    /// Goes on by the lines of a stop of a line. Refused only where there is no memory.
    pub(crate) fn stop(
        &mut self,
        alloc: Global,
        line: ScriptLine,
        stop: Stop,
    ) -> Result<(), ScriptFault>
        requires { NamesChannelOf self.old.session.profile.checked.geometry line }
        ensures goes { OnOk result (GoesOnBy (stopped line stop) self.old self.new) }
        ensures fault { IfErr result (λ fault. fault ≡ Memory) }
    {
        match stop {
            Stop::Dark { calls } => {
                // no line makes as many calls, so it ends what was to fail
                self.go_on(alloc, ScriptLine::OneFault { call: u64::MAX })?;
                self.go_on(alloc, ScriptLine::Fuse { calls: Some(calls) })?;
                self.go_on(alloc, line)
            }
            Stop::Loss => {
                self.go_on(alloc, line)?;
                self.go_on(alloc, ScriptLine::Lose)
            }
        }
    }
}
