// The list of commands that the commands of a channel stand for, as they come.
ghost use Rattle.std.specs.Prelude.{◌≡◌, ◌<◌, ◌^◌, ◌↔◌, if◌then◌else◌, IsTrue, None, Some, slice_index_or, slice_set};
ghost use Rattle.ddr4_timing.specs.Command.{bank_of, is_column};
ghost use Rattle.ddr4_timing.specs.Floors.{least_clock};
ghost use Rattle.ddr4_timing.specs.Lawful.{IsInGeometry, IsNotEarly, MayComeNext};
ghost use Rattle.ddr4_timing.specs.Places.{HasBank, bank_index};
ghost use Rattle.ddr4_timing.specs.declared.command.Command.TheVariants.{Pre};
ghost use Rattle.auto_precharge.specs.Unfolding.{IsOpenFor, MayFollow, Stands, Unfolded, settled, unfolded_none, unfolded_with, went};

use crate::issued::Issued;
use crate::waiting::{Closing, drop_due, go_due, soonest_of};
use ddr4_timing::command::{Command, Stamped};
use ddr4_timing::place::BankAddress;
use ddr4_timing::timing::CommandRules;
use ddr4_timing::timing_state::TimingState;

/// What the commands of a channel leave to its next one, where some of them bring a precharge with them: the state behind what
/// has gone, the precharges that are still to come, each in the place of its bank, a clock that none of these is before, and whether
/// any may be to come.
///
/// Each call is given the numbers for which it was made.
#[derive(Clone, Copy)]
pub struct Unfolding {
    state: TimingState,
    closings: [Option<Closing>; 128],
    soonest: u64,
    waits: bool,
}

// The bank of a RD or WR.
#[inline(always)]
fn column_bank(x: &Command) -> Option<BankAddress>
    ensures { result ≡ (if is_column x.now then Some (bank_of x.now) else None) }
{
    match *x {
        Command::Rd { at, .. } | Command::Wr { at, .. } => Some(at),
        _ => None,
    }
}

impl Unfolding {
    /// Before any command.
    pub fn new(rules: &CommandRules) -> Unfolding
        ensures { Stands rules.now result unfolded_none }
    {
        Unfolding {
            state: TimingState::new(&rules.timing, &rules.geometry),
            closings: [None; 128],
            soonest: u64::MAX,
            waits: false,
        }
    }

    /// The precharges that are still to come, each in the place of its bank.
    pub(crate) fn closings(&self) -> &[Option<Closing>]
        ensures { result.now ≡ self.now.closings }
    {
        &self.closings
    }

    // The precharge of a bank that is still to come.
    #[inline(always)]
    fn closing_of(&self, rules: &CommandRules, at: BankAddress) -> Option<Closing>
        requires { HasBank rules.now.geometry at }
        ensures { result ≡ slice_index_or self.now.closings (bank_index at) None }
    {
        self.closings[at.number(&rules.geometry)]
    }

    /// The precharges before the clock go.
    pub(crate) fn settle(&mut self, rules: &CommandRules, clock: u64)
        requires { clock < 2 ^ 63 }
        ensures { (u : Unfolded) → Stands rules.now self.old u →
            Stands rules.now self.new (settled clock u) }
    {
        if clock <= self.soonest {
            return;
        }
        go_due(&mut self.state, rules, &self.closings, clock);
        drop_due(&mut self.closings, clock);
        self.soonest = soonest_of(&self.closings);
    }

    /// May the command come next? Of a RD or WR its bank isn't about to be closed either.
    #[inline(always)]
    pub fn admits(&self, rules: &CommandRules, x: &Stamped) -> bool
        ensures place { IsTrue result → IsInGeometry rules.now.geometry x.now.cmd }
        ensures next { (u : Unfolded) → Stands rules.now self.now u → (IsTrue result
            ↔ (MayComeNext rules.now.timing rules.now.geometry u.list x.now
            × IsOpenFor u.waiting x.now.cmd)) }
    {
        if !self
            .state
            .ready(&rules.timing, &rules.geometry, &x.cmd, x.clock)
        {
            return false;
        }
        if !self.waits {
            return true;
        }
        match column_bank(&x.cmd) {
            Some(at) => self.closing_of(rules, at).is_none(),
            None => true,
        }
    }

    /// The command goes. Where it closes its bank, a precharge is to come.
    #[inline(always)]
    pub(crate) fn go(&mut self, rules: &CommandRules, next: &Issued)
        requires early { next.now.command.clock < 2 ^ 63 }
        requires place { IsInGeometry rules.now.geometry next.now.command.cmd }
        ensures { (u : Unfolded) → Stands rules.now self.old u →
            IsNotEarly rules.now.timing u.list next.now.command →
            Stands rules.now self.new (went rules.now.timing u next.now) }
    {
        let Stamped { clock, cmd } = next.command;
        self.state
            .issue(&rules.timing, &rules.geometry, &cmd, clock);
        if !next.closes {
            return;
        }
        if let Some(at) = column_bank(&cmd) {
            self.await_close(rules, at, next.line);
        }
    }

    // A precharge of the bank is to come, at the least clock that the rules allow.
    #[inline(never)]
    fn await_close(&mut self, rules: &CommandRules, at: BankAddress, line: u64)
        requires { HasBank rules.now.geometry at }
        ensures { (u : Unfolded) → Stands rules.now self.old u →
            Stands rules.now self.new (record u {
              waiting = slice_set u.waiting (bank_index at) (Some (record {
                at = at;
                clock = least_clock rules.now.timing u.list (Pre at);
                line = line;
              }));
            }) }
    {
        let cmd = Command::Pre { at };
        let clock = self.state.least_clock(&rules.timing, &rules.geometry, &cmd);
        self.soonest = self.soonest.min(clock);
        self.waits = true;
        self.closings[at.number(&rules.geometry)] = Some(Closing { at, clock, line });
    }

    /// Goes on with the command, if it may follow those before it. Answers whether it may.
    #[inline(always)]
    pub fn follow(&mut self, rules: &CommandRules, next: &Issued) -> bool
        requires { next.now.command.clock < 2 ^ 63 }
        ensures tells { (u : Unfolded) → Stands rules.now self.old u →
            (IsTrue result ↔ MayFollow rules.now u next.now.command) }
        ensures goes { (u : Unfolded) → Stands rules.now self.old u → IsTrue result →
            Stands rules.now self.new (unfolded_with rules.now.timing u next.now) }
    {
        self.settle(rules, next.command.clock);
        if !self.admits(rules, &next.command) {
            return false;
        }
        self.go(rules, next);
        true
    }
}
