// What a device restores to.
ghost use Rattle.std.specs.Prelude.{◌≡◌, List, ℕ, not, Ok, Err, IfOk, IfErr};
ghost use Rattle.line_memory.specs.Memory.{IsMemory};
ghost use Rattle.save_device.specs.Device.{LeavesOnly, MayLeave, present};
ghost use Rattle.save_device.specs.Changes.{OnlyReads};
ghost use Rattle.save_image.specs.Header.{Fits};
ghost use Rattle.save_image.specs.Image.{Image};
ghost use Rattle.save_image.specs.Reading.{version_in};
ghost use Rattle.slot_store.specs.Outcomes.{restored, Found};
ghost use Rattle.slot_store.specs.Rest.{IsAtRestOn};
ghost use Rattle.slot_store.specs.Slots.{IsCapacity, HasSize, other, page_in};
ghost use Rattle.slot_store.specs.Told.{claimed, header_of_reading, in_slot, pages_checked, damaged_of, AreReadings, IsChosen, IsOfHeaders, IsOfBodies, Refuses, IsRestored, is_fault, is_device, reads_of_newest, CallsOfRestore};

use crate::checking::{AtOnce, CheckBoth, InTurn, has_sound_body, read_pages};
use crate::choosing::choose;
use crate::headers::{Readings, read_both};
use crate::slots::device_size;
use crate::{Head, Slot};
use line_memory::Line;
use save_device::SaveDevice;
use save_image::{PAGE_BYTES, PAGE_LINES, Version};
use std::alloc::Global;
use std::fmt;
use std::thread::Threads;
use thiserror::Error;

/// Whether a write that was acknowledged persistent may be missing.
#[derive(Clone, Copy, Debug, PartialEq, Eq)]
pub enum Verdict {
    Complete,
    /// The image holds the first `after` writes, and was made while later ones could be acknowledged.
    PossibleLoss { after: u64 },
}

impl fmt::Display for Verdict {
    fn fmt<W: fmt::Write>(&self, f: &mut fmt::Formatter<W>) -> fmt::Result {
        match self {
            Verdict::Complete => f.write_str("Complete"),
            Verdict::PossibleLoss { .. } => f.write_str("PossibleLoss"),
        }
    }
}

/// The newest image, as it was restored.
#[derive(Drop)]
pub struct Restored {
    pub head: Head,
    /// The version of its bytes.
    pub version: Version,
    pub lines: Vec<Line>,
}

/// Why nothing was restored. It is shown as its number, its name and the slot.
#[derive(Clone, Copy, Debug, PartialEq, Eq, Error)]
pub enum RestoreError {
    /// No slot is open.
    #[error("1 NoImage")]
    NoImage,
    /// The first slot that is open and no image, also where its digest isn't that of its lines, or the second where both hold
    /// one generation.
    #[error("2 Damaged {slot}")]
    Damaged { slot: Slot },
    /// The device is no store of so many lines.
    #[error("3 WrongSize")]
    WrongSize,
    /// A read or the first sync failed.
    #[error("4 Device")]
    Device,
    /// There was no memory for the lines.
    #[error("5 Memory")]
    Memory,
}

// The first slot whose lines aren't sound: those of the newest image, or those of the other slot.
fn damaged(newest: Slot, here: bool, there: bool) -> Option<Slot>
    ensures { result ≡ damaged_of newest here there }
{
    let (first, second) = match newest {
        Slot::First => (here, there),
        Slot::Second => (there, here),
    };
    match (first, second) {
        (false, _) => Some(Slot::First),
        (true, false) => Some(Slot::Second),
        (true, true) => None,
    }
}

// The newest image by the headers, with its lines, or the first slot whose lines don't have its digest.
fn read_newest<D: SaveDevice, C: CheckBoth>(
    check: &C,
    alloc: Global,
    device: &mut D,
    lines: usize,
    head: Head,
    readings: Readings,
) -> Result<Restored, RestoreError>
    requires capacity { IsCapacity lines }
    requires size { HasSize lines (D.state device.old) }
    requires readings { AreReadings lines (D.state device.old).bytes readings }
    requires chosen { (one two : List (List ℕ))
        → IsChosen (Ok head) one two (claimed readings.first one) (claimed readings.second two) }
    ensures found { IfOk result (λ it. IsRestored it lines (D.state device.old).bytes) }
    ensures head { IfOk result (λ it. it.head ≡ head) }
    ensures version { IfOk result (λ it. it.version
        ≡ version_in (page_in lines head.newest.slot (D.state device.old).bytes)) }
    ensures refused { IfErr result
        (λ error. Refuses error (restored lines (D.state device.old).bytes)) }
    ensures bodies { IfErr result IsOfBodies }
    ensures reads { OnlyReads (reads_of_newest lines
        (header_of_reading (in_slot readings (other head.newest.slot))) result)
        (not (is_fault result)) (D.state device.old) (D.state device.new) }
{
    let slot = head.newest.slot;
    let memory = read_pages(
        alloc,
        device,
        slot.start(lines) + PAGE_BYTES,
        lines / PAGE_LINES,
    )?;
    let Ok(sound) = check.check_both(device, slot, lines, &readings, &memory) else {
        return Err(RestoreError::Device);
    };
    if let Some(slot) = damaged(slot, sound.here, sound.there) {
        return Err(RestoreError::Damaged { slot });
    }
    Ok(Restored {
        head,
        version: readings.of(slot).version(),
        lines: memory,
    })
}

// Why no image is restored where the headers name none. The first slot may be damaged though its header is none.
fn refusal<D: SaveDevice>(
    device: &mut D,
    lines: usize,
    readings: Readings,
    error: RestoreError,
) -> RestoreError
    requires capacity { IsCapacity lines }
    requires size { HasSize lines (D.state device.old) }
    requires readings { AreReadings lines (D.state device.old).bytes readings }
    requires chosen { (one two : List (List ℕ))
        → IsChosen (Err error) one two (claimed readings.first one) (claimed readings.second two) }
    ensures refused { Refuses result (restored lines (D.state device.old).bytes) }
    ensures headers { IsOfHeaders result }
    ensures reads { OnlyReads (pages_checked lines (header_of_reading readings.first))
        (not (is_device result)) (D.state device.old) (D.state device.new) }
{
    let Ok(sound) = has_sound_body(device, Slot::First, lines, readings.first) else {
        return RestoreError::Device;
    };
    if sound {
        error
    } else {
        RestoreError::Damaged { slot: Slot::First }
    }
}

// The restore itself, with its checks of the digests made so.
fn restore_by<D: SaveDevice, C: CheckBoth>(
    check: &C,
    alloc: Global,
    device: &mut D,
    lines: usize,
) -> Result<Restored, RestoreError>
    requires { IsCapacity lines }
    ensures found { IfOk result (λ it. IsRestored it lines (D.state device.old).bytes) }
    ensures sound { IfOk result
        (λ it. IsMemory lines it.lines.items × Fits it.head.newest.generation it.head.count) }
    ensures version { IfOk result (λ it. it.version
        ≡ version_in (page_in lines it.head.newest.slot (D.state device.old).bytes)) }
    ensures refused { IfErr result
        (λ error. Refuses error (restored lines (D.state device.old).bytes)) }
    ensures calls { CallsOfRestore lines result (D.state device.old) (D.state device.new) }
    ensures same { (D.state device.new).bytes ≡ (D.state device.old).bytes }
    ensures any_moment { LeavesOnly (D.state device.old) (D.state device.new)
        (MayLeave (present (D.state device.old))) }
    ensures at_rest { IfOk result (λ it. (image : Image)
        → restored lines (D.state device.old).bytes ≡ Found it.head.newest.slot image
        → IsAtRestOn it.head.newest.slot image lines it.head.closed (D.state device.new)) }
{
    if device.len() != device_size(lines) {
        return Err(RestoreError::WrongSize);
    }
    let Ok(()) = device.sync() else {
        return Err(RestoreError::Device);
    };
    let Ok(readings) = read_both(device, lines) else {
        return Err(RestoreError::Device);
    };
    match choose(readings.first, readings.second) {
        Ok(head) => read_newest(check, alloc, device, lines, head, readings),
        Err(error) => Err(refusal(device, lines, readings, error)),
    }
}

/// Reads the newest image of a device that holds memories of so many lines, in either version. After the length it syncs
/// once and then only reads, one page at a time and each at most once; it costs one pass over an image, and a further one
/// over the older image where that is of version 2. An open slot of version 2 is no image where its digest isn't that of its
/// lines. `Memory` comes only where the lines' memory was refused, `Device` only where a read or the sync failed.
pub fn restore<D: SaveDevice>(
    alloc: Global,
    device: &mut D,
    lines: usize,
) -> Result<Restored, RestoreError>
    requires { IsCapacity lines }
    ensures found { IfOk result (λ it. IsRestored it lines (D.state device.old).bytes) }
    ensures sound { IfOk result
        (λ it. IsMemory lines it.lines.items × Fits it.head.newest.generation it.head.count) }
    ensures version { IfOk result (λ it. it.version
        ≡ version_in (page_in lines it.head.newest.slot (D.state device.old).bytes)) }
    ensures refused { IfErr result
        (λ error. Refuses error (restored lines (D.state device.old).bytes)) }

    // No call where the length is another; else one sync, and then only reads.
    ensures calls { CallsOfRestore lines result (D.state device.old) (D.state device.new) }
    ensures same { (D.state device.new).bytes ≡ (D.state device.old).bytes }

    // A stop within leaves what one before could leave.
    ensures any_moment { LeavesOnly (D.state device.old) (D.state device.new)
        (MayLeave (present (D.state device.old))) }

    // From then on a save may begin over it.
    ensures at_rest { IfOk result (λ it. (image : Image)
        → restored lines (D.state device.old).bytes ≡ Found it.head.newest.slot image
        → IsAtRestOn it.head.newest.slot image lines it.head.closed (D.state device.new)) }
{
    restore_by(&InTurn, alloc, device, lines)
}

/// Reads the newest image of a device as `restore` does: it answers the same, makes the same calls in the same order and leaves
/// the same bytes. While the other slot's lines are read and digested, where they have a digest, those of the newest image are
/// digested in a thread of their own; in turn where none is to be had. It takes no more memory, and the device is asked by the
/// caller's thread alone.
pub fn restore_at_once<D: SaveDevice, R: Threads>(
    rt: &R,
    alloc: Global,
    device: &mut D,
    lines: usize,
) -> Result<Restored, RestoreError>
    requires { IsCapacity lines }
    ensures found { IfOk result (λ it. IsRestored it lines (D.state device.old).bytes) }
    ensures sound { IfOk result
        (λ it. IsMemory lines it.lines.items × Fits it.head.newest.generation it.head.count) }
    ensures version { IfOk result (λ it. it.version
        ≡ version_in (page_in lines it.head.newest.slot (D.state device.old).bytes)) }
    ensures refused { IfErr result
        (λ error. Refuses error (restored lines (D.state device.old).bytes)) }

    // No call where the length is another; else one sync, and then only reads.
    ensures calls { CallsOfRestore lines result (D.state device.old) (D.state device.new) }
    ensures same { (D.state device.new).bytes ≡ (D.state device.old).bytes }

    // A stop within leaves what one before could leave.
    ensures any_moment { LeavesOnly (D.state device.old) (D.state device.new)
        (MayLeave (present (D.state device.old))) }

    // From then on a save may begin over it.
    ensures at_rest { IfOk result (λ it. (image : Image)
        → restored lines (D.state device.old).bytes ≡ Found it.head.newest.slot image
        → IsAtRestOn it.head.newest.slot image lines it.head.closed (D.state device.new)) }
{
    restore_by(&AtOnce { rt }, alloc, device, lines)
}
