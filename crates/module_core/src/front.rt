// The front: a life without its channels.
ghost use Rattle.std.specs.Prelude.{◌≡◌, ◌+◌, ◌<◌, ◌≤◌, ◌^◌, ℕ, true, false, nat_le, None, Some, IfErr, IfNone, IfOk};
ghost use Rattle.arm_state.specs.Modes.{is_armed, is_backed, has_ended};
ghost use Rattle.arm_state.specs.declared.mode.Mode.TheVariants.{Disarming};
ghost use Rattle.channel_port.specs.Shape.{Shape, is_full_of_reads_at};
ghost use Rattle.line_memory.specs.Memory.{IsMemory};
ghost use Rattle.nv_machine.specs.State.{Machine, memory_of, pending_of};
ghost use Rattle.slot_store.specs.Slots.{IsCapacity};
ghost use Rattle.module_saves.specs.Saving.{MakesAtMost, MakesBetween};

use crate::opening::LifeTerms;
use arm_state::{Mode, ReadRefusal, SaveState, WriteRefusal};
use module_saves::Saves;
use nv_machine::Accepted;

/// No save is begun over a newest image of this generation or a greater one.
const SPENT: u64 = 1 << 62;

/// The largest count of an image, and so the number of the first write that no image could hold.
const MOST_WRITES: u64 = 1 << 62;

/// A life without its channels: how many writes it has accepted, its mode, and its saves. It has all that a decision needs but
/// what waits in the channels, which whoever asks has to tell.
#[derive(Drop)]
pub struct Front {
    pub(crate) terms: LifeTerms,
    /// How many writes were accepted, and how many of them are persistent, counted from the first life on.
    pub(crate) accepted: u64,
    pub(crate) persisted: u64,
    /// How many writes the newest image holds that is known settled.
    pub(crate) saved: u64,
    pub(crate) mode: Mode,
    /// The last reading of the gauge.
    pub(crate) reading: u64,
    pub(crate) saves: Saves,
    pub ghost from: { terms.start ≤ accepted },
    pub ghost stored: { terms.cut ≤ saved },
    pub ghost settled: { saved ≤ accepted },
    pub ghost making: { MakesBetween saved accepted saves.saving },
    pub ghost kept: { accepted ≤ terms.cut + terms.trail },
    pub ghost numbers: { accepted ≤ 2 ^ 62 },
    pub ghost unspent: { is_backed mode ≡ true → saves.newest.generation ≤ 2 ^ 62 },
    pub ghost most: { is_armed mode ≡ true → MakesAtMost (2 ^ 62) saves.saving },
}

impl Front {
    ghost use Rattle.nv_machine.specs.Moves.{begun, disarming};
    ghost use Rattle.nv_machine.specs.Refusals.{is_low, need_for, saves_of, read_refusal, write_refusal};
    ghost use Rattle.module_core.specs.Fronts.{AcceptsOne, FrontMatches, FrontMoves, HasRoomForWrite, IsUnspentWhileArmed, SameButSaves, SameNumbers, TellsWrite, setup_in};
    ghost use Rattle.module_saves.specs.Saves.{BeginsSave};

    // Which refusal a write to one of the lines meets, if any.
    fn write_refusal(&self, is_full: bool, need: u64) -> Option<WriteRefusal>
        ensures refusal { (shape : Shape) (m : Machine) (line : ℕ) → FrontMatches self.now m
            → TellsWrite (setup_in shape self.now) m line is_full need
            → result ≡ write_refusal (setup_in shape self.now) m line }
        ensures running { IfNone result (has_ended self.now.mode ≡ false) }
        ensures full { IfNone result (is_full ≡ false) }
        ensures room { IfNone result (HasRoomForWrite self.now) }
    {
        if self.mode.has_ended() {
            return Some(WriteRefusal::Closed);
        }
        if self.mode.is_disarming() {
            return Some(WriteRefusal::Disarming);
        }
        if self.accepted - self.terms.cut == self.terms.trail || self.accepted == MOST_WRITES {
            return Some(WriteRefusal::TrailFull);
        }
        if is_full {
            return Some(WriteRefusal::Full);
        }
        if self.mode.is_short(self.reading, need) {
            return Some(WriteRefusal::EnergyLow {
                need,
                has: self.reading,
            });
        }
        None
    }

    // Accepts a write: it has the next number, and while armed it is persistent at once.
    fn accept(&mut self) -> Accepted
        requires { HasRoomForWrite self.old }
        ensures accepts { AcceptsOne self.old result self.new }
    {
        let number = self.accepted;
        self.accepted = number + 1;
        if self.mode.is_armed() {
            self.persisted = self.accepted;
        }
        Accepted {
            number,
            mark: self.persisted,
        }
    }

    /// Accepts a write to one of the lines, which has the next number and is persistent at once while armed; or answers the first
    /// refusal that it meets. It is told whether the line's channel is full, and what the gauge has to show while one write more
    /// waits.
    pub fn accept_write(&mut self, is_full: bool, need: u64) -> Result<Accepted, WriteRefusal>
        ensures refusal { IfErr result (λ refusal. (shape : Shape) (m : Machine) (line : ℕ)
            → FrontMatches self.old m → TellsWrite (setup_in shape self.old) m line is_full need
            → write_refusal (setup_in shape self.old) m line ≡ Some refusal) }
        ensures admitted { IfOk result (λ accepted. (shape : Shape) (m : Machine) (line : ℕ)
            → FrontMatches self.old m → TellsWrite (setup_in shape self.old) m line is_full need
            → write_refusal (setup_in shape self.old) m line ≡ None) }
        ensures running { IfOk result (λ accepted. has_ended self.old.mode ≡ false) }
        ensures full { IfOk result (λ accepted. is_full ≡ false) }
        ensures accepts { IfOk result (λ accepted. AcceptsOne self.old accepted self.new) }
        ensures same { IfErr result (λ refusal. self.new ≡ self.old) }
    {
        match self.write_refusal(is_full, need) {
            Some(refusal) => Err(refusal),
            None => Ok(self.accept()),
        }
    }

    /// How many writes were accepted before a read of one of the lines, which sees them all; or the first refusal that it meets.
    /// It is told whether as many reads are open as may be in the line's channel.
    pub fn admit_read(&self, is_full: bool) -> Result<u64, ReadRefusal>
        ensures refusal { IfErr result (λ refusal. (shape : Shape) (m : Machine) (line : ℕ)
            → FrontMatches self.now m → line < shape.lines
            → is_full ≡ is_full_of_reads_at shape m.waits line
            → read_refusal (setup_in shape self.now) m line ≡ Some refusal) }
        ensures admitted { IfOk result (λ at. (shape : Shape) (m : Machine) (line : ℕ)
            → FrontMatches self.now m → line < shape.lines
            → is_full ≡ is_full_of_reads_at shape m.waits line
            → read_refusal (setup_in shape self.now) m line ≡ None) }
        ensures running { IfOk result (λ at. has_ended self.now.mode ≡ false) }
        ensures full { IfOk result (λ at. is_full ≡ false) }
        ensures at { IfOk result (λ at. at ≡ self.now.accepted) }
    {
        if self.mode.has_ended() {
            return Err(ReadRefusal::Closed);
        }
        if is_full {
            return Err(ReadRefusal::Full);
        }
        Ok(self.accepted)
    }

    /// While armed: the last reading is below what the gauge has to show for what waits.
    pub fn is_low(&self, need: u64) -> bool
        ensures armed { result ≡ true → is_armed self.now.mode ≡ true }
        ensures low { (shape : Shape) (m : Machine) → FrontMatches self.now m
            → need ≡ need_for (setup_in shape self.now) (pending_of m)
            → result ≡ is_low (setup_in shape self.now) m }
    {
        self.mode.is_short(self.reading, need)
    }

    /// What may stand in the way of arming and of a save.
    pub fn save_state(&self) -> SaveState
        ensures state { (m : Machine) → FrontMatches self.now m → result ≡ saves_of m }
        ensures spent { result.is_spent ≡ nat_le (2 ^ 62) self.now.saves.newest.generation }
    {
        SaveState {
            is_running: self.saves.saving.is_some(),
            is_unsettled: self.saves.unsettled,
            is_spent: self.saves.newest.generation >= SPENT,
        }
    }

    /// Begins a save of all accepted writes, in place of one that runs. Until its last page is written the channels have to hold
    /// back the writes from the accepted count on.
    pub fn begin_save(&mut self, lines: usize)
        requires generation { self.old.saves.newest.generation ≤ 2 ^ 62 }
        requires armed { IsUnspentWhileArmed self.old }
        requires capacity { IsCapacity lines }
        ensures begins { BeginsSave self.old.saves self.old.accepted (is_armed self.old.mode) lines
            self.new.saves }
        ensures same { SameButSaves self.old self.new }
        ensures moves { (m : Machine) → FrontMatches self.old m → IsMemory lines (memory_of m)
            → FrontMoves lines m self.old (begun m) self.new }
    {
        let armed = self.mode.is_armed();
        self.saves.begin(self.accepted, armed, lines);
    }

    /// Begins the disarming: writes are refused until a save of all accepted ones is done, which is begun as at `begin_save`.
    pub fn begin_disarming(&mut self, lines: usize)
        requires armed { is_armed self.old.mode ≡ true }
        requires capacity { IsCapacity lines }
        ensures begins { BeginsSave self.old.saves self.old.accepted false lines self.new.saves }
        ensures numbers { SameNumbers self.old self.new }
        ensures saved { self.new.saved ≡ self.old.saved }
        ensures reading { self.new.reading ≡ self.old.reading }
        ensures mode { self.new.mode ≡ Disarming }
        ensures moves { (m : Machine) → FrontMatches self.old m → IsMemory lines (memory_of m)
            → FrontMoves lines m self.old (disarming m) self.new }
    {
        self.mode = Mode::Disarming;
        self.begin_save(lines);
    }
}
