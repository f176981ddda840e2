// The lines of both slots, and their digests.
ghost use Rattle.std.specs.Prelude.{◌≡◌, ◌+◌, ◌*◌, ◌≤◌, ◌++◌, not, drop, length, is_ok, vec_len, vec_capacity, IfOk, IfErr};
ghost use Rattle.save_device.specs.Changes.{OnlyReads};
ghost use Rattle.save_image.specs.Body.{lines_in};
ghost use Rattle.save_image.specs.Image.{digest_of};
ghost use Rattle.slot_store.specs.Slots.{IsCapacity, HasSize, other, body_in};
ghost use Rattle.slot_store.specs.Told.{header_of_reading, in_slot, is_fault, is_sound, pages_checked, pages_read, IsFailure};
ghost use Rattle.save_image.specs.declared.page.TheConstants.{PAGE_BYTES, PAGE_LINES};

use crate::headers::{Reading, Readings, read_page};
use crate::{RestoreError, Slot};
use line_memory::Line;
use save_device::{DeviceFault, SaveDevice};
use save_image::{PAGE_BYTES, PAGE_LINES, page_lines};
use sha2::{Digest, Sha256};
use std::alloc::Global;
use std::thread::{Threads, join_mut};

// Adds the lines of a page, for which there is room.
fn push_page(memory: &mut Vec<Line>, page: &[u8; PAGE_BYTES])
    requires { vec_len memory.old + PAGE_LINES ≤ vec_capacity memory.old }
    ensures items { memory.new.items ≡ memory.old.items ++ lines_in PAGE_LINES page.now }
    ensures capacity { vec_capacity memory.new ≡ vec_capacity memory.old }
{
    for line in page_lines(page) {
        memory.push_reserved(*line);
    }
}

/// The lines of a body, page by page.
pub(crate) fn read_pages<D: SaveDevice>(
    alloc: Global,
    device: &mut D,
    at: usize,
    pages: usize,
) -> Result<Vec<Line>, RestoreError>
    requires { at + PAGE_BYTES * pages ≤ length (D.state device.old).bytes }
    ensures failed { IfErr result IsFailure }
    ensures lines { IfOk result
        (λ memory. memory.items
        ≡ lines_in (PAGE_LINES * pages) (drop at (D.state device.old).bytes)) }
    ensures reads { OnlyReads (pages_read pages result) (not (is_fault result))
        (D.state device.old) (D.state device.new) }
{
    let Ok(mut memory) = Vec::with_capacity(alloc, PAGE_LINES * pages) else {
        return Err(RestoreError::Memory);
    };
    for page in 0..pages {
        let Ok(bytes) = read_page(device, at + PAGE_BYTES * page) else {
            return Err(RestoreError::Device);
        };
        push_page(&mut memory, &bytes);
    }
    Ok(memory)
}

// The digest of the lines of a body, page by page.
fn body_digest<D: SaveDevice>(
    device: &mut D,
    at: usize,
    pages: usize,
) -> Result<[u8; 32], DeviceFault>
    requires { at + PAGE_BYTES * pages ≤ length (D.state device.old).bytes }
    ensures digest { IfOk result (λ digest. digest
        ≡ digest_of (lines_in (PAGE_LINES * pages) (drop at (D.state device.old).bytes))) }
    ensures reads { OnlyReads pages (is_ok result) (D.state device.old) (D.state device.new) }
{
    let mut hasher = Sha256::new();
    for page in 0..pages {
        let bytes = read_page(device, at + PAGE_BYTES * page)?;
        hasher.update(&bytes);
    }
    Ok(hasher.finalize())
}

/// Whether the lines of a slot that was read so have its digest. They are read where it has one.
pub(crate) fn has_sound_body<D: SaveDevice>(
    device: &mut D,
    slot: Slot,
    lines: usize,
    reading: Reading,
) -> Result<bool, DeviceFault>
    requires capacity { IsCapacity lines }
    requires size { HasSize lines (D.state device.old) }
    ensures sound { IfOk result
        (λ sound. sound ≡ is_sound reading (body_in lines slot (D.state device.old).bytes)) }
    ensures reads { OnlyReads (pages_checked lines (header_of_reading reading)) (is_ok result)
        (D.state device.old) (D.state device.new) }
{
    let Some(digest) = reading.digest() else {
        return Ok(true);
    };
    let found = body_digest(device, slot.start(lines) + PAGE_BYTES, lines / PAGE_LINES)?;
    Ok(digest == found)
}

// Whether these lines have the digest of the slot that was read so.
fn are_sound(reading: Reading, memory: &[Line]) -> bool
    ensures { result ≡ is_sound reading memory.now }
{
    match reading.digest() {
        Some(digest) => digest == Sha256::digest(memory.as_flattened()),
        None => true,
    }
}

/// Whether the lines of the newest image have their digest, and whether those of the other slot have theirs.
#[derive(Clone, Copy)]
pub(crate) struct Soundness {
    pub(crate) here: bool,
    pub(crate) there: bool,
}

/// How the lines of both slots are compared with their digests.
pub(crate) trait CheckBoth {
    /// Digests these lines, of the newest image in this slot, and reads and digests those of the other slot. The digest that a
    /// slot's header doesn't say isn't asked for.
    fn check_both<D: SaveDevice>(
        &self,
        device: &mut D,
        slot: Slot,
        lines: usize,
        readings: &Readings,
        memory: &[Line],
    ) -> Result<Soundness, DeviceFault>
        requires capacity { IsCapacity lines }
        requires size { HasSize lines (D.state device.old) }
        ensures here { IfOk result
            (λ sound. sound.here ≡ is_sound (in_slot readings.now slot) memory.now) }
        ensures there { IfOk result (λ sound. sound.there
            ≡ is_sound (in_slot readings.now (other slot))
            (body_in lines (other slot) (D.state device.old).bytes)) }
        ensures reads { OnlyReads
            (pages_checked lines (header_of_reading (in_slot readings.now (other slot))))
            (is_ok result) (D.state device.old) (D.state device.new) };
}

/// The other slot first, and then these lines.
#[derive(Drop)]
pub(crate) struct InTurn;

impl CheckBoth for InTurn {
    fn check_both<D: SaveDevice>(
        &self,
        device: &mut D,
        slot: Slot,
        lines: usize,
        readings: &Readings,
        memory: &[Line],
    ) -> Result<Soundness, DeviceFault> {
        let behind = slot.other();
        let there = has_sound_body(device, behind, lines, readings.of(behind))?;
        let here = are_sound(readings.of(slot), memory);
        Ok(Soundness { here, there })
    }
}

/// These lines in a thread of their own beside the other slot, or in turn where no thread is to be had.
#[derive(Drop)]
pub(crate) struct AtOnce<'r, R: Threads> {
    pub(crate) rt: &'r R,
}

impl<R: Threads> CheckBoth for AtOnce<'_, R> {
    fn check_both<D: SaveDevice>(
        &self,
        device: &mut D,
        slot: Slot,
        lines: usize,
        readings: &Readings,
        memory: &[Line],
    ) -> Result<Soundness, DeviceFault> {
        let newest = readings.of(slot);
        let behind = slot.other();
        let older = readings.of(behind);
        let (here, there) = join_mut(
            self.rt,
            &mut || -> bool
                ensures { result ≡ is_sound newest memory.entry.now }
            { are_sound(newest, memory) },
            &mut || -> Result<bool, DeviceFault>
                requires { IsCapacity lines × HasSize lines (D.state device.now) }
                ensures { IfOk result (λ sound. sound
                    ≡ is_sound older (body_in lines behind (D.state device.entry.now).bytes))
                    × OnlyReads (pages_checked lines (header_of_reading older)) (is_ok result)
                    (D.state device.entry.now) (D.state device.exit.now) }
            { has_sound_body(device, behind, lines, older) },
        );
        Ok(Soundness {
            here,
            there: there?,
        })
    }
}
