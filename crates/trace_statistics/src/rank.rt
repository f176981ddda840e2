// The banks of a rank.
ghost use Rattle.std.specs.Prelude.{◌≡◌, ℕ, ◌<◌, [], ◌∷◌, IsTrue, List};
ghost use Rattle.ddr4_timing.specs.Command.{bank_of, is_column, rank_of};
ghost use Rattle.ddr4_timing.specs.Places.{HasSlot, slot_of};
ghost use Rattle.auto_precharge.specs.declared.issued.Issued.{Issued};
ghost use Rattle.trace_statistics.specs.Numbers.{touching};
ghost use Rattle.trace_statistics.specs.Standing.{IsOfBank, RankStands, phase_of};

use crate::numbers::BankNumbers;
use crate::phase::Phase;
use auto_precharge::Issued;
use ddr4_timing::command::Command;
use ddr4_timing::place::BankAddress;

/// The banks of a rank: how each stands, and its numbers.
#[derive(Clone, Copy)]
pub struct Rank {
    pub(crate) phases: [Phase; 16],
    pub(crate) banks: [BankNumbers; 16],
}

// Where the bank stands among those of its rank.
pub(crate) fn slot_of(at: BankAddress) -> usize
    requires { HasSlot at }
    ensures value { result ≡ slot_of at }
    ensures small { result < 16 }
{
    (at.group * 4 + at.bank) as usize
}

impl Rank {
    /// Before any command.
    pub(crate) fn new() -> Rank
        ensures { (rank : ℕ) → RankStands rank result [] }
    {
        Rank {
            phases: [Phase::Closed; 16],
            banks: [BankNumbers::new(); 16],
        }
    }

    /// Takes a command to the rank in. Answers how the bank of a RD or WR stood.
    pub(crate) fn take(&mut self, next: &Issued) -> Phase
        requires { HasSlot (bank_of next.now.command.cmd) }
        ensures stands { (before : List Issued)
            → RankStands (rank_of next.now.command.cmd) self.old before
            → RankStands (rank_of next.now.command.cmd) self.new (next.now ∷ before) }
        ensures found { (before : List Issued)
            → RankStands (rank_of next.now.command.cmd) self.old before
            → IsTrue (is_column next.now.command.cmd)
            → result ≡ phase_of (touching (bank_of next.now.command.cmd) before) }
    {
        match next.command.cmd {
            Command::Act { at, .. } | Command::Rd { at, .. } | Command::Wr { at, .. } => {
                self.take_at(at, next)
            }
            Command::Pre { at } => self.take_at(at, next),
            Command::PreAll { .. } | Command::Ref { .. } | Command::Sre { .. } => {
                self.phases = [Phase::Closed; 16];
                Phase::Closed
            }
        }
    }

    // Takes a command to one bank in. Answers how the bank stood.
    fn take_at(&mut self, at: BankAddress, next: &Issued) -> Phase
        requires slot { HasSlot at }
        requires bank { IsOfBank at next.now.command.cmd }
        ensures stands { (before : List Issued) → RankStands at.rank self.old before
            → RankStands at.rank self.new (next.now ∷ before) }
        ensures found { (before : List Issued) → RankStands at.rank self.old before
            → result ≡ phase_of (touching at before) }
    {
        let slot = slot_of(at);
        let phase = self.phases[slot];
        self.banks[slot].take(&next.command.cmd, phase);
        self.phases[slot] = phase.after(next);
        phase
    }
}
