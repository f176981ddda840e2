// A channel's single commands, as a drain sends them, and what it asks before each.
ghost use Rattle.std.specs.Prelude.{◌≡◌, ◌≢◌, List, ◌<◌, ◌^◌, slice_get};
ghost use Rattle.chan_core.specs.State.{channel_memory, owed_at, placed_writes};
ghost use Rattle.chan_core.specs.Singles.{FitsOldest, IsEarliest, IssuesAlone};
ghost use Rattle.ddr4_timing.specs.Lawful.{IsLawful, open_row, with_command};
ghost use Rattle.ddr4_timing.specs.Places.{HasBank};
ghost use Rattle.ddr4_timing.specs.declared.command.Stamped.{Stamped};
ghost use Rattle.bank_core.specs.Stands.{Stands};
ghost use Rattle.chan_core.specs.Calls.{LosesReads};
ghost use Rattle.chan_core.specs.Phases.{TellsSleep};
ghost use Rattle.chan_core.specs.declared.phase.Phase.TheVariants.{Running, Stepping};

use crate::channel::Channel;
use crate::channel_memory::oldest_write;
use crate::phase::Phase;
use bank_core::banks::Banks;
use ddr4_timing::command::{Command, Stamped};
use ddr4_timing::place::{BankAddress, Place};

impl Channel {
    /// Ends the work of the scheduler, as backup begins: all reads are lost, and their tickets are unknown from now on. No
    /// refresh is promised in its time until every rank had its SRE. It costs the number of pending requests.
    pub fn begin_steps(&mut self)
        requires { self.old.phase ≡ Running }
        ensures { LosesReads (record self.old { phase = Stepping }) self.new }
    {
        self.memory.begin_steps();
    }

    /// The number and the place of the oldest pending write; None exactly where none is pending. It costs the number of
    /// pending requests.
    pub fn oldest(&self) -> Option<(u64, Place)>
        ensures { result ≡ slice_get (placed_writes self.now) 0 }
    {
        oldest_write(self.memory.waiting.requests())
    }

    /// The least clock at which a single command may go, if there is one: it may go from then on up to nine intervals after
    /// the last REF of its rank.
    pub fn earliest(&self, cmd: Command) -> Option<u64>
        ensures { IsEarliest self.now.checked self.now.commands cmd result }
    {
        self.banks.earliest(cmd)
    }

    /// The row that is open in a bank, or None where the bank is closed.
    pub fn open_row(&self, bank: BankAddress) -> Option<u64>
        requires { HasBank self.now.checked.geometry bank }
        ensures { result ≡ open_row bank self.now.commands }
    {
        self.banks.open_row(bank)
    }

    /// How many REF the rank owes at the clock: one for each interval that has passed, less those issued.
    pub fn owed(&self, rank: u64, clock: u64) -> u64
        requires { rank < self.now.checked.geometry.ranks }
        ensures { result ≡ owed_at self.now rank clock }
    {
        self.banks.owed(rank, clock)
    }

    /// A single command goes at a clock, as a drain sends them; `earliest` says at which it may. A WR takes the oldest pending
    /// write to the array, held or not. All reads are lost: their tickets are unknown from now on. From the first single
    /// command until every rank had its SRE no refresh is promised in its time. It takes no memory but for commands that are
    /// kept, and costs the number of ranks, and where a read is open the number of pending requests.
    pub fn issue(&mut self, cmd: Command, clock: u64)
        requires lawful { IsLawful self.old.checked (with_command self.old.commands clock cmd) }
        requires early { clock < 2 ^ 63 }
        requires oldest { FitsOldest self.old cmd }
        ensures issues { IssuesAlone self.old (record { clock = clock; cmd = cmd }) self.new }
        ensures memory { channel_memory self.new ≡ channel_memory self.old }
    {
        if !self.banks.ready(cmd, clock) {
            unreachable!()
        }
        let command = Stamped { clock, cmd };
        self.banks.issue(cmd, clock);
        let phase = phase_alone(&self.banks);
        self.memory.issue_alone(command, phase);
        self.clock = clock;
        self.recent.push_back(command);
    }
}

// The phase after a single command.
fn phase_alone(banks: &Banks) -> Phase
    ensures single { result ≢ Running }
    ensures asleep { (list : List Stamped) → Stands banks.now list →
        TellsSleep result banks.now.checked list }
{
    for rank in 0..banks.checked().geometry.ranks {
        if !banks.is_asleep(rank) {
            return Phase::Stepping;
        }
    }
    Phase::Asleep
}
