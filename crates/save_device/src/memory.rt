// A device in memory, which doesn't fail. It keeps no earlier contents: only proofs read those.
ghost use Rattle.std.specs.Prelude.{◌≡◌, ◌⊎◌, ◌↔◌, ℕ, ◌+◌, ◌<◌, ◌≤◌, ◌^◌, min, max, length, true, false, replicate, slice_index, slice_index_or, slice_range, is_ok, IsTrue, IfOk, OnOk, IsOk};
ghost use Rattle.save_device.specs.declared.calls.CallKind.TheVariants.{Read};
ghost use Rattle.save_device.specs.Rows.{overwritten, IsInRange};
ghost use Rattle.save_device.specs.Calls.{called};
ghost use Rattle.save_device.specs.Device.{IsSettled, MayLeave, Elapses, present};
ghost use Rattle.save_device.specs.Changes.{Put, Settle, IsCall, Makes};
ghost use Rattle.save_device.specs.Flags.{AllUpWithin, CopiedWithin, ClearedWithin};
ghost use Rattle.save_device.specs.Pick.{IsPickedFrom};

use crate::{CallKind, CallLog, DeviceFault, SaveDevice};
use ghost_trace::Trace;
use same_values::copy_with_room;
use std::alloc::{AllocError, Global};

/// Which of the images that a stop may leave.
#[derive(Clone, Copy, Debug, PartialEq, Eq)]
pub enum Pick {
    /// Unsettled places have their byte of the last sync.
    Old,
    /// They have what a read gives.
    New,
    /// They have this byte.
    Torn(u8),
}

impl Pick {
    ghost use Rattle.save_device.specs.Pick.{picked};

    // The byte of an unsettled place.
    fn byte(self, settled: u8, now: u8) -> u8
        ensures { result ≡ picked self settled now }
    {
        match self {
            Pick::Old => settled,
            Pick::New => now,
            Pick::Torn(byte) => byte,
        }
    }
}

#[derive(Drop)]
struct Content {
    bytes: Vec<u8>,
    unsettled: Vec<bool>,
}

/// The places that a sync has to visit, from `low` on and below `high`.
#[derive(Clone, Copy)]
struct Span {
    low: usize,
    high: usize,
}

/// A device in memory, on which no call fails. A write or a read costs its range, and a sync what was written since the
/// last one (the span from its first to its last byte).
#[derive(Drop)]
pub struct MemoryDevice {
    content: Content,
    // the bytes at the last sync
    settled: Vec<u8>,
    span: Span,
    earlier: Trace<Content>,
    calls: CallLog,
    ghost small: { length content.bytes.items < 2 ^ 64 },
    ghost flags: { length content.unsettled.items ≡ length content.bytes.items },
    ghost whole: { length settled.items ≡ length content.bytes.items },
    ghost agrees: { (k : ℕ) → slice_index_or content.unsettled.items k false ≡ false
        → slice_index settled.items k ≡ slice_index content.bytes.items k },
    ghost spanned: { AllUpWithin span.low span.high content.unsettled.items },
    ghost inside: { span.high ≤ length content.bytes.items },
}

impl Span {
    // A span of no place.
    const NONE: Span = Span {
        low: usize::MAX,
        high: 0,
    };

    // The least span that holds this one and the n places from `at` on.
    fn with(self, at: usize, n: usize) -> Span
        requires { at + n < 2 ^ 64 }
        ensures low { result.low ≡ min self.low at }
        ensures high { result.high ≡ max self.high (at + n) }
    {
        Span {
            low: self.low.min(at),
            high: self.high.max(at + n),
        }
    }

    // Copies the bytes of its places.
    fn copy(self, from: &[u8], to: &mut Vec<u8>)
        requires from { self.high ≤ length from.now }
        requires to { self.high ≤ length to.old.items }
        ensures { CopiedWithin self.low self.high from.now to.old.items to.new.items }
    {
        if self.low < self.high {
            to[self.low..self.high].copy_from_slice(&from[self.low..self.high]);
        }
    }

    // Takes down the flags of its places.
    fn clear(self, flags: &mut Vec<bool>)
        requires { self.high ≤ length flags.old.items }
        ensures { ClearedWithin self.low self.high flags.old.items flags.new.items }
    {
        if self.low < self.high {
            flags[self.low..self.high].fill(false);
        }
    }
}

impl MemoryDevice {
    ghost use Rattle.save_device.specs.Copies.{AreAlike};
    ghost use Rattle.save_device.specs.Memory.{state_of, settled_row_of, IsPicked};

    /// A device with these bytes, settled. It takes twice the memory of the bytes, and refuses only where there is none.
    pub fn new(alloc: Global, bytes: Vec<u8>) -> Result<MemoryDevice, AllocError>
        ensures row { IfOk result (λ device. (state_of device).bytes ≡ bytes.items) }
        ensures settled_row { IfOk result (λ device. settled_row_of device ≡ bytes.items) }
        ensures settled { IfOk result (λ device. IsSettled (state_of device)) }
    {
        let settled = bytes.to_vec(alloc)?;
        let unsettled = Vec::from_elem(alloc, false, bytes.len())?;
        Ok(MemoryDevice {
            content: Content { bytes, unsettled },
            settled,
            span: Span::NONE,
            earlier: Trace::new(),
            calls: CallLog::new(),
        })
    }

    /// A device of the same bytes, unsettled in the same places, with the same past. It takes twice the memory of the bytes, and
    /// refuses only where there is none.
    pub fn copy(&self, alloc: Global) -> Result<MemoryDevice, AllocError>
        ensures { IfOk result (AreAlike self.now) }
    {
        let size = self.content.bytes.len();
        let bytes = copy_with_room(alloc, &self.content.bytes, size)?;
        let unsettled = copy_with_room(alloc, &self.content.unsettled, size)?;
        let settled = copy_with_room(alloc, &self.settled, size)?;
        let earlier = self.earlier.copy();
        let calls = self.calls.copy();
        Ok(MemoryDevice {
            content: Content { bytes, unsettled },
            settled,
            span: self.span,
            earlier,
            calls,
        })
    }

    /// Power is lost and comes back: the device has one of the images that a stop may leave, and is settled. It is no call.
    pub fn stop(&mut self, pick: Pick)
        ensures left { MayLeave (present (state_of self.old)) (state_of self.new).bytes }
        ensures settled { IsSettled (state_of self.new) }
        ensures picked { IsPicked pick self.old (state_of self.new).bytes }
        ensures settled_row { settled_row_of self.new ≡ (state_of self.new).bytes }
        ensures time { Elapses (state_of self.old) (state_of self.new) }
        ensures calls { (state_of self.new).calls ≡ (state_of self.old).calls }
    {
        self.earlier.note(&self.content);
        choose(
            &mut self.content.bytes,
            &self.settled,
            &self.content.unsettled,
            pick,
        );
        self.span.copy(&self.content.bytes, &mut self.settled);
        self.span.clear(&mut self.content.unsettled);
        self.span = Span::NONE;
    }
}

// Gives each unsettled place its byte.
fn choose(bytes: &mut Vec<u8>, settled: &[u8], unsettled: &[bool], pick: Pick)
    requires settled { length settled.now ≡ length bytes.old.items }
    requires unsettled { length unsettled.now ≡ length bytes.old.items }
    ensures len { length bytes.new.items ≡ length bytes.old.items }
    ensures picked { IsPickedFrom pick settled.now
        (λ place. slice_index_or unsettled.now place false) bytes.old.items bytes.new.items }
{
    for k in 0..settled.len() {
        if unsettled[k] {
            bytes[k] = pick.byte(settled[k], bytes[k]);
        }
    }
}

fn overwrite(row: &mut Vec<u8>, at: usize, bytes: &[u8])
    requires { at + length bytes.now ≤ length row.old.items }
    ensures { row.new.items ≡ overwritten row.old.items at bytes.now }
{
    row[at..at + bytes.len()].copy_from_slice(bytes);
}

fn raise(flags: &mut Vec<bool>, at: usize, n: usize)
    requires { at + n ≤ length flags.old.items }
    ensures { flags.new.items ≡ overwritten flags.old.items at (replicate n true) }
{
    flags[at..at + n].fill(true);
}

impl SaveDevice for MemoryDevice {
    ghost use Rattle.save_device.specs.Memory.{state_of, settled_row_of};

    ghost state = { state_of };

    ghost fits = { λ device. device.small };

    fn len(&self) -> usize {
        self.content.bytes.len()
    }

    fn read(&mut self, at: usize, into: &mut [u8]) -> Result<(), DeviceFault>
        requires { at + length into.old ≤ length (state_of self.old).bytes }
        ensures call { IsCall Read (is_ok result) (state_of self.old) (state_of self.new) }
        ensures same { present (state_of self.new) ≡ present (state_of self.old) }
        ensures bytes { OnOk result
            (into.new ≡ slice_range (state_of self.old).bytes at (at + length into.old)) }
        ensures ok { IsOk result }

        // No more than the call is new, in what the next sync and the next stop are to do either.
        ensures earlier { (state_of self.new).earlier ≡ (state_of self.old).earlier }
        ensures settled_row { settled_row_of self.new ≡ settled_row_of self.old }
    {
        into.copy_from_slice(&self.content.bytes[at..at + into.len()]);
        self.calls.note(CallKind::Read, true);
        Ok(())
    }

    fn write_at(&mut self, at: usize, bytes: &[u8]) -> Result<(), DeviceFault>
        requires { at + length bytes.now ≤ length (state_of self.old).bytes }
        ensures makes { Makes (Put at bytes.now) (is_ok result)
            (state_of self.old) (state_of self.new) }
        ensures ok { IsOk result }

        // Each place of the range is unsettled then, also one that had its byte before.
        ensures unsettled { (place : ℕ) → IsTrue ((state_of self.new).unsettled place)
            ↔ (IsTrue ((state_of self.old).unsettled place)
            ⊎ IsInRange at (length bytes.now) place) }
        ensures settled_row { settled_row_of self.new ≡ settled_row_of self.old }
    {
        self.earlier.note(&self.content);
        overwrite(&mut self.content.bytes, at, bytes);
        raise(&mut self.content.unsettled, at, bytes.len());
        self.span = self.span.with(at, bytes.len());
        self.calls.note(CallKind::Write, true);
        Ok(())
    }

    fn sync(&mut self) -> Result<(), DeviceFault>
        ensures makes { Makes Settle (is_ok result) (state_of self.old) (state_of self.new) }
        ensures ok { IsOk result }
        ensures settled_row { settled_row_of self.new ≡ (state_of self.old).bytes }
    {
        self.earlier.note(&self.content);
        self.span.copy(&self.content.bytes, &mut self.settled);
        self.span.clear(&mut self.content.unsettled);
        self.span = Span::NONE;
        self.calls.note(CallKind::Sync, true);
        Ok(())
    }

    fn faults(&self) -> u64 {
        self.calls.faults()
    }
}
