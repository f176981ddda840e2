// Scripts that are broken off and restored.
ghost use Rattle.std.specs.Prelude.{◌≡◌};

use crate::extent::Extent;
use crate::judging::{Restored, Wrong, judged};
use crate::ledger::{Ledger, account_of};
use crate::tally::{Counts, Findings, Left};
use crash_table::{Outcome, PICKS};
use interleave_map::{Interleaving, ReadyMap};
use nv_profile::Profile;
use nv_script::read_script;
use save_device::{MemoryDevice, Pick, SaveDevice};
use script_runner::run_script;
use std::alloc::{AllocError, Global};

/// Two kinds of unsettled bytes.
pub(crate) const FEW: [Pick; 2] = [Pick::Old, Pick::Torn(0xa5)];

/// Behind so many device calls each script has ended.
const MOST_CALLS: u64 = 64;

/// A closing save makes no more device calls, those that are made again not counted.
const CLOSING_CALLS: u64 = 8;

/// Where the lies end, in units.
const MOST_UNITS: u64 = 4_000;

// The word of a pick.
fn word_of(alloc: Global, pick: Pick) -> Result<String, AllocError> {
    match pick {
        Pick::Old => format!(in alloc; "old"),
        Pick::New => format!(in alloc; "new"),
        Pick::Torn(byte) => format!(in alloc; "torn{byte:02x}"),
    }
}

// Do answers tell of a call of the device that failed?
fn tells_fault(answers: &str) -> bool {
    answers.contains("fault ") || answers.contains("step retry")
}

// Is this what the table of a script's crashes has for the same stop?
fn is_same(outcome: &Outcome, restored: &Restored, told: u64) -> bool {
    outcome.found.count() == restored.count
        && outcome.found.is_complete() == restored.is_complete
        && outcome.told == told
}

// A script that was run to its end.
#[derive(Drop)]
struct Ran {
    answers: String,
    device: MemoryDevice,
}

// What a device reads.
fn bytes_of(alloc: Global, device: &mut MemoryDevice) -> anyhow::Result<Vec<u8>> {
    let mut bytes = Vec::from_elem(alloc, 0, device.len())?;
    device.read(0, &mut bytes)?;
    Ok(bytes)
}

// A byte that isn't one of these, where there is one.
fn byte_not_in(bytes: &[u8]) -> u8 {
    (0..u8::MAX)
        .find(|byte| !bytes.contains(byte))
        .unwrap_or(u8::MAX)
}

/// The trials of a profile.
#[derive(Drop)]
pub struct Trials<'p> {
    pub(crate) alloc: Global,
    pub(crate) profile: &'p Profile,
}

impl<'p> Trials<'p> {
    /// Of this profile.
    pub(crate) fn new(alloc: Global, profile: &'p Profile) -> Trials<'p> {
        Trials { alloc, profile }
    }

    // A ready-made map of the profile.
    pub(crate) fn map(&self, interleaving: Interleaving) -> ReadyMap
        ensures { result.checked ≡ self.now.profile.now.checked }
    {
        ReadyMap {
            interleaving,
            checked: self.profile.checked,
        }
    }

    // Runs a script to its end.
    fn run(&self, script: &str) -> anyhow::Result<Ran> {
        let lines_map = self.map(Interleaving::Lines);
        let xor_map = self.map(Interleaving::Xor);
        let mut bytes = Vec::new(self.alloc);
        let device = run_script(
            self.alloc,
            self.profile,
            script.as_bytes(),
            &lines_map,
            &xor_map,
            &mut bytes,
        )?;
        let answers = String::from_utf8(bytes)?;
        Ok(Ran { answers, device })
    }

    /// A formatted device.
    pub(crate) fn formatted(&self) -> anyhow::Result<MemoryDevice> {
        Ok(self.run("format\n")?.device)
    }

    /// What a script answers.
    pub(crate) fn answers(&self, script: &str) -> anyhow::Result<String> {
        Ok(self.run(script)?.answers)
    }

    // What a script leaves that is stopped at its end.
    fn left(&self, script: &str, honest: bool) -> anyhow::Result<Left> {
        let Ran {
            answers,
            mut device,
        } = self.run(script)?;
        let bytes = bytes_of(self.alloc, &mut device)?;
        device.stop(Pick::Torn(byte_not_in(&bytes)));
        Ok(Left {
            account: account_of(self.alloc, script, &answers)?,
            bytes,
            torn: bytes_of(self.alloc, &mut device)?,
            honest,
        })
    }

    // What a restore behind a script finds, judged by the writes before it and by the table of crashes.
    fn judge(
        &self,
        script: &str,
        pick: Pick,
        answers: &str,
        honest: bool,
    ) -> anyhow::Result<Result<Restored, Wrong>> {
        let ledger = Ledger::of(self.alloc, script, answers)?;
        let restored = match judged(&ledger, answers, honest) {
            Ok(restored) => restored,
            Err(wrong) => return Ok(Err(wrong)),
        };
        let lines = read_script(
            self.alloc,
            script.as_bytes(),
            &self.profile.checked.geometry,
        )?;
        let outcome = crash_table::Trials::new(self.alloc, self.profile).outcome(&lines, pick)?;
        if is_same(&outcome, &restored, ledger.told) {
            Ok(Ok(restored))
        } else {
            Ok(Err(Wrong::Table))
        }
    }

    // Restores what a script leaves by a pick; none where that is wrong, which is told.
    fn restore_by(
        &self,
        script: &str,
        pick: Pick,
        honest: bool,
        tally: &mut Findings,
    ) -> anyhow::Result<Option<Restored>> {
        let word = word_of(self.alloc, pick)?;
        let whole = format!(in self.alloc; "{script}restore {word}\nread 0\nread 1\nread 127\n")?;
        let answers = self.answers(&whole)?;
        match self.judge(script, pick, &answers, honest)? {
            Ok(restored) => Ok(Some(restored)),
            Err(wrong) => {
                tally.blame(self.alloc, &whole, wrong)?;
                Ok(None)
            }
        }
    }

    // Restores what a script leaves by each pick, or by the first one alone where none makes a difference.
    fn restore_each(
        &self,
        script: &str,
        picks: &[Pick],
        left: &Left,
        tally: &mut Findings,
    ) -> anyhow::Result<Counts> {
        let mut counts = Counts::NONE;
        let mut last = None;
        for pick in picks {
            if last.is_none() || !left.is_settled() {
                last = self.restore_by(script, *pick, left.honest, tally)?;
            }
            if let Some(restored) = last {
                counts.count(restored);
            }
        }
        Ok(counts)
    }

    // Runs a script to its end, stops it there, and counts what restores by the picks find. Answers whether a call of the device
    // failed. A restore depends on nothing but the bytes that a stop left: where one of the last stops left the same, behind the
    // same writes and answers, none is made again.
    fn restore(
        &self,
        script: &str,
        picks: &[Pick],
        honest: bool,
        tally: &mut Findings,
    ) -> anyhow::Result<bool> {
        let left = self.left(script, honest)?;
        let has_failed = tells_fault(&left.account);
        if tally.counts_as_before(&left) {
            return Ok(has_failed);
        }
        let wrong = tally.wrong.len();
        let counts = self.restore_each(script, picks, &left, tally)?;
        let is_right = tally.wrong.len() == wrong;
        tally.remember(left, counts, is_right)?;
        Ok(has_failed)
    }

    /// Behind `format` the device fails from each of its calls on.
    pub(crate) fn stops(&self, text: &str) -> anyhow::Result<Findings> {
        let mut tally = Findings::new(self.alloc);
        for calls in 0..MOST_CALLS {
            let script = format!(in self.alloc; "format\nfuse {calls}\n{text}")?;
            if !self.restore(&script, &PICKS, false, &mut tally)? {
                break;
            }
        }
        Ok(tally)
    }

    /// Mains are lost after each line, and the gauge told the truth.
    pub(crate) fn losses(&self, text: &str) -> anyhow::Result<Findings> {
        let mut tally = Findings::new(self.alloc);
        let mut begun = format!(in self.alloc; "format\n")?;
        for line in text.split_inclusive('\n') {
            begun.push_str(line)?;
            let script = format!(in self.alloc; "{begun}lose\n")?;
            // a device call that failed ends nothing here: each line is tried
            let _failed = self.restore(&script, &PICKS, true, &mut tally)?;
        }
        Ok(tally)
    }

    // How many calls of the device a script makes behind `format`.
    fn calls(&self, text: &str) -> anyhow::Result<u64> {
        for calls in 0..MOST_CALLS {
            let answers = self.answers(&format!(in self.alloc; "format\nfuse {calls}\n{text}")?)?;
            if !tells_fault(&answers) {
                return Ok(calls);
            }
        }
        Ok(MOST_CALLS)
    }

    /// Behind `format` one call of the device fails, each of them in turn; and mains are lost behind the script. None is lost then
    /// where calls are made again.
    pub(crate) fn one_faults(
        &self,
        text: &str,
        repeats: bool,
        extent: Extent,
    ) -> anyhow::Result<Findings> {
        let mut tally = Findings::new(self.alloc);
        for call in 1..=self.calls(text)? {
            let script = format!(in self.alloc; "format\nonefault {call}\n{text}")?;
            // a call that is made again is told by no fault
            let _failed = self.restore(&script, extent.picks(), false, &mut tally)?;
            let lost = format!(in self.alloc; "{script}lose\n")?;
            let _failed = self.restore(&lost, extent.picks(), repeats, &mut tally)?;
        }
        Ok(tally)
    }

    // Mains are lost, and one call of the save fails: each of them in turn.
    fn lose_with_one(
        &self,
        begun: &str,
        repeats: bool,
        extent: Extent,
        tally: &mut Findings,
    ) -> anyhow::Result<()> {
        for call in 1..=CLOSING_CALLS {
            let script = format!(in self.alloc; "{begun}onefault {call}\nlose\n")?;
            let _failed = self.restore(&script, extent.picks(), repeats, tally)?;
        }
        Ok(())
    }

    /// Mains are lost after each line, and one call of the save fails. Nothing is lost where it is made again.
    pub(crate) fn one_fault_losses(
        &self,
        text: &str,
        repeats: bool,
        extent: Extent,
    ) -> anyhow::Result<Findings> {
        let mut tally = Findings::new(self.alloc);
        let mut begun = format!(in self.alloc; "format\n")?;
        for line in text.split_inclusive('\n') {
            begun.push_str(line)?;
            self.lose_with_one(&begun, repeats, extent, &mut tally)?;
        }
        Ok(tally)
    }

    // Behind `format` one call fails, and from another one on all do.
    fn one_and_fuse(
        &self,
        text: &str,
        call: u64,
        most: u64,
        apart: u64,
        tally: &mut Findings,
    ) -> anyhow::Result<()> {
        for calls in call..=most {
            if calls.checked_rem(apart) == Some(0) {
                let script = format!(in self.alloc;
                    "format\nonefault {call}\nfuse {calls}\n{text}"
                )?;
                let _failed = self.restore(&script, &FEW, false, tally)?;
            }
        }
        Ok(())
    }

    /// Behind `format` one call of the device fails, and from a later one on all do; the later ones so many apart.
    pub(crate) fn both(&self, text: &str, apart: u64) -> anyhow::Result<Findings> {
        let mut tally = Findings::new(self.alloc);
        let most = self.calls(text)?;
        for call in 1..=most {
            self.one_and_fuse(text, call, most, apart, &mut tally)?;
        }
        Ok(tally)
    }

    // Mains are lost, and the gauge has less than it told: each number of units, so many apart.
    fn lie(&self, begun: &str, unit: u64, apart: u64, tally: &mut Findings) -> anyhow::Result<()> {
        for units in 0..=MOST_UNITS {
            if units.checked_rem(apart) == Some(0) {
                let lie = units.wrapping_mul(unit);
                let script = format!(in self.alloc; "{begun}lie {lie}\nlose\n")?;
                // nor here: each number of units is tried
                let _failed = self.restore(&script, &FEW, false, tally)?;
            }
        }
        Ok(())
    }

    /// Mains are lost after each line, and the gauge has less than it told, so many units apart.
    pub(crate) fn lies(&self, text: &str, unit: u64, apart: u64) -> anyhow::Result<Findings> {
        let mut tally = Findings::new(self.alloc);
        let mut begun = format!(in self.alloc; "format\n")?;
        for line in text.split_inclusive('\n') {
            begun.push_str(line)?;
            self.lie(&begun, unit, apart, &mut tally)?;
        }
        Ok(tally)
    }
}
