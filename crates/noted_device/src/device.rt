// A device in memory whose changes are noted.
ghost use Rattle.std.specs.Prelude.{◌≡◌, ◌+◌, ◌≤◌, ◌∷◌, [], ◌++◌, length, map, is_ok, IfOk, IsErr, OnOk};
ghost use Rattle.save_device.specs.Changes.{Put, Settle, Makes};
ghost use Rattle.save_device.specs.Device.{IsSettled, with_calls};
ghost use Rattle.save_device.specs.Memory.{state_of};
ghost use Rattle.noted_device.specs.Notes.{Hands, Tells, change_of};

use crate::notes::{Handed, Note, note_sync, note_write};
use ghost_trace::Trace;
use save_device::{CallKind, CallLog, DeviceFault, MemoryDevice, SaveDevice};
use std::alloc::{AllocError, Global};
use std::collections::VecDeque;

/// A device in memory whose changes are noted until they are handed out. A call for whose note there is no memory fails, and changes
/// nothing. A store that had the device's first bytes has those that it has now, once all changes were made on it, in their order.
#[derive(Drop)]
pub struct NotedDevice {
    memory: MemoryDevice,
    notes: VecDeque<Note>,
    began: Trace<MemoryDevice>,
    handed: Trace<Note>,
    calls: CallLog,
    alloc: Global,
    ghost one: { length began.items ≡ 1 },
    ghost tells: { Tells began.items (handed.items ++ notes.items) (state_of memory).bytes },
}

impl NotedDevice {
    /// A device with these bytes, settled, of which nothing is noted.
    pub fn new(alloc: Global, bytes: Vec<u8>) -> Result<NotedDevice, AllocError>
        ensures bytes { IfOk result (λ device. (state_of device.memory).bytes ≡ bytes.items) }
        ensures settled { IfOk result (λ device. IsSettled (state_of device.memory)) }
        ensures none { IfOk result (λ device. device.notes.items ≡ []) }
    {
        let memory = MemoryDevice::new(alloc, bytes)?;
        let mut began = Trace::new();
        began.note(&memory);
        Ok(NotedDevice {
            memory,
            notes: VecDeque::new(alloc),
            began,
            handed: Trace::new(),
            calls: CallLog::new(),
            alloc,
        })
    }

    /// Hands out the oldest change that is noted, which isn't then: its bytes into the beginning of a buffer.
    pub fn hand_out(&mut self, into: &mut [u8]) -> Handed
        ensures hands { Hands result (map change_of self.old.notes.items)
            (map change_of self.new.notes.items) into.old into.new }
        ensures memory { self.new.memory ≡ self.old.memory }
        ensures calls { self.new.calls ≡ self.old.calls }
    {
        match self.notes.front() {
            None => return Handed::Nothing,
            Some(Note::Write { bytes, .. }) if bytes.len() > into.len() => {
                return Handed::Longer {
                    length: bytes.len(),
                };
            }
            Some(_) => {}
        }
        let Some(note) = self.notes.pop_front() else {
            unreachable!();
        };
        self.handed.note(&note);
        match note {
            Note::Write { at, bytes } => {
                let length = bytes.len();
                into[..length].copy_from_slice(&bytes);
                Handed::Write { at, length }
            }
            Note::Sync => Handed::Sync,
        }
    }
}

impl SaveDevice for NotedDevice {
    ghost state = { λ device. with_calls (state_of device.memory) device.calls };

    ghost fits = { λ device. device.memory.small };

    fn len(&self) -> usize {
        self.memory.len()
    }

    fn read(&mut self, at: usize, into: &mut [u8]) -> Result<(), DeviceFault> {
        let result = self.memory.read(at, into);
        self.calls.note(CallKind::Read, result.is_ok());
        result
    }

    fn write_at(&mut self, at: usize, bytes: &[u8]) -> Result<(), DeviceFault>
        requires { at + length bytes.now ≤ length (state_of self.old.memory).bytes }
        ensures makes { Makes (Put at bytes.now) (is_ok result)
            (with_calls (state_of self.old.memory) self.old.calls)
            (with_calls (state_of self.new.memory) self.new.calls) }

        // What went well is noted, and nothing else.
        ensures noted { OnOk result (map change_of self.new.notes.items
            ≡ map change_of self.old.notes.items ++ Put at bytes.now ∷ []) }
        ensures kept { IsErr result → self.new.notes.items ≡ self.old.notes.items }
    {
        if note_write(&mut self.notes, self.alloc, at, bytes).is_err() {
            self.calls.note(CallKind::Write, false);
            return Err(DeviceFault);
        }
        self.calls.note(CallKind::Write, true);
        self.memory.write_at(at, bytes)
    }

    fn sync(&mut self) -> Result<(), DeviceFault>
        ensures makes { Makes Settle (is_ok result)
            (with_calls (state_of self.old.memory) self.old.calls)
            (with_calls (state_of self.new.memory) self.new.calls) }

        // What went well is noted, and nothing else.
        ensures noted { OnOk result (map change_of self.new.notes.items
            ≡ map change_of self.old.notes.items ++ Settle ∷ []) }
        ensures kept { IsErr result → self.new.notes.items ≡ self.old.notes.items }
    {
        if note_sync(&mut self.notes).is_err() {
            self.calls.note(CallKind::Sync, false);
            return Err(DeviceFault);
        }
        self.calls.note(CallKind::Sync, true);
        self.memory.sync()
    }

    fn faults(&self) -> u64 {
        self.calls.faults()
    }
}
