// What C asks of a module besides its lines.
ghost use Rattle.std.specs.Prelude.{◌≡◌, ◌≢◌, ◌↔◌, ◌<◌, ◌≤◌, length, None, IfSome, IsTrue};
ghost use Rattle.slot_store.specs.Slots.{device_size};
ghost use Rattle.panguhero_c.specs.Calls.{Arms, Disarms, HandsChange, IsNoPick, IsPick, LeavesBytes, MakesStep, Persists, ReadsGauge, Senses, StopsAfter, TellsAccepted, TellsBehind, TellsMode, TellsSizes, TellsStore, WorksAll, line_count_in, mark_in, memory_in};
ghost use Rattle.reply_codes.specs.Codes.{told};

use crate::opened::OpenModule;
use reply_codes::{
    DONE, IN_FILE, NO_SUCH_WRITE, SIZE, Told, WAITING, arm_told, disarm_told, handed_told,
    level_told, mode_told, save_told,
};
use save_device::{Pick, SaveDevice};
use slot_store::device_size;

impl OpenModule {
    /// How many writes were accepted.
    pub(crate) fn accepted(&self) -> Told
        ensures { TellsAccepted result self.now.life }
    {
        Told::with(DONE, self.life.accepted(), 0)
    }

    /// What the module does with writes.
    pub(crate) fn mode(&self) -> Told
        ensures { TellsMode result self.now.life }
    {
        mode_told(self.life.mode())
    }

    /// Issues one command of each channel, where it has one.
    pub(crate) fn work(&mut self) -> Told
        ensures { WorksAll result self.old.life self.new.life }
    {
        Told::with(DONE, self.life.work_each(), 0)
    }

    /// How many lines it has, and how many bytes its device.
    pub(crate) fn sizes(&self) -> Told
        ensures { TellsSizes result self.now.life }
    {
        Told::with(DONE, self.life.line_count(), self.store_length() as u64)
    }

    /// Sets the level of the gauge, which is read.
    pub(crate) fn set_energy(&mut self, level: u64) -> Told
        ensures { Senses level result self.old.life self.new.life }
    {
        let reading = self.life.set_energy(level);
        level_told(reading, self.life.mode())
    }

    /// Reads the gauge as it is.
    pub(crate) fn sense(&mut self) -> Told
        ensures { ReadsGauge result self.old.life self.new.life }
    {
        let reading = self.life.sense();
        level_told(reading, self.life.mode())
    }

    /// Arms.
    pub(crate) fn arm(&mut self) -> Told
        ensures { Arms result self.old.life self.new.life }
    {
        arm_told(self.life.arm())
    }

    /// Begins the disarming.
    pub(crate) fn disarm(&mut self) -> Told
        ensures { Disarms result self.old.life self.new.life }
    {
        disarm_told(self.life.disarm())
    }

    /// Makes one step of a save.
    pub(crate) fn step(&mut self) -> Told
        ensures { MakesStep result self.old.life self.new.life }
    {
        save_told(self.life.step())
    }

    // The answer where the write of this number is persistent.
    fn if_persistent(&self, number: u64) -> Option<Told>
        ensures is { IfSome result (λ answered. (answered ≡ told 0 (mark_in self.now.life) 0)
            × (number < mark_in self.now.life)) }
        ensures none { result ≡ None → mark_in self.now.life ≤ number }
    {
        let mark = self.mark();
        if number < mark {
            return Some(Told::with(DONE, mark, 0));
        }
        None
    }

    // What is told behind a save: its refusal, or the mark. Nothing yet where it was done and lacks the write.
    fn told_behind(&self, number: u64, saved: Told) -> Option<Told>
        ensures told { IfSome result
            (λ answered. TellsBehind number saved answered self.now.life) }
        ensures none { result ≡ None
            → (saved.code ≡ 0) × (mark_in self.now.life ≤ number) }
    {
        if saved.code != DONE {
            return Some(saved);
        }
        self.if_persistent(number)
    }

    /// Makes the write of this number persistent. A save that runs may lack it, and then there is a second one.
    pub(crate) fn persist(&mut self, number: u64) -> Told
        ensures { Persists number result self.old.life self.new.life }
    {
        let accepted = self.life.accepted();
        if number >= accepted {
            return Told::with(NO_SUCH_WRITE, accepted, 0);
        }
        if let Some(told) = self.if_persistent(number) {
            return told;
        }
        let first = self.save();
        if let Some(told) = self.told_behind(number, first) {
            return told;
        }
        let second = self.save();
        match self.told_behind(number, second) {
            Some(told) => told,
            None => Told::code(WAITING),
        }
    }

    /// From now on the device passes so many calls.
    pub(crate) fn stop_after(&mut self, calls: u64)
        ensures { StopsAfter calls self.old.life self.new.life }
    {
        self.life.stop_after(calls);
    }

    /// How many bytes the device has.
    pub(crate) fn store_length(&self) -> usize
        ensures { result ≡ device_size (line_count_in self.now.life) }
    {
        device_size(self.life.line_count() as usize)
    }

    /// Is the device in memory?
    pub(crate) fn is_in_memory(&self) -> bool
        ensures { (IsTrue result) ↔ (memory_in self.now.life ≢ None) }
    {
        self.life.device().device.first().is_some()
    }

    /// The bytes that a device in memory holds, into a buffer of that many.
    pub(crate) fn store_bytes(&mut self, into: &mut [u8]) -> Told
        ensures { TellsStore into.old into.new result self.old.life self.new.life }
    {
        let size = self.store_length();
        if into.len() != size {
            return Told::with(SIZE, size as u64, 0);
        }
        if self.life.read_memory(into) {
            Told::with(DONE, size as u64, 0)
        } else {
            Told::code(IN_FILE)
        }
    }

    /// Hands out the oldest change that the device notes, its bytes into the beginning of a buffer.
    pub(crate) fn next_change(&mut self, into: &mut [u8]) -> Told
        ensures { HandsChange into.old into.new result self.old.life self.new.life }
    {
        handed_told(self.life.hand_out(into))
    }

    /// Stops here, on a device in memory: the bytes that the stop leaves of it.
    pub(crate) fn stopped(self, pick: Pick, into: &mut [u8])
        requires memory { memory_in self.life ≢ None }
        requires size { length into.old ≡ device_size (line_count_in self.life) }
        ensures { LeavesBytes pick into.new self.life }
    {
        let Some(mut memory) = self.life.into_device().device.into_first() else {
            unreachable!();
        };
        memory.stop(pick);
        let Ok(()) = memory.read(0, into) else {
            unreachable!();
        };
    }
}

/// The pick of these numbers.
pub(crate) fn pick_of(number: u32, byte: u32) -> Option<Pick>
    ensures is { IfSome result (IsPick number byte) }
    ensures none { result ≡ None → IsNoPick number byte }
{
    match number {
        0 => Some(Pick::Old),
        1 => Some(Pick::New),
        2 if byte < 256 => Some(Pick::Torn(byte as u8)),
        _ => None,
    }
}
