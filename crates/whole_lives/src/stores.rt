// The bytes of a store, formatted and restored.
ghost use Rattle.std.specs.Prelude.{◌≡◌, ◌≢◌, ◌⊎◌, IfOk, IfSome, IfErr, length};
ghost use Rattle.ddr4_timing.specs.Limits.{lines_of};
ghost use Rattle.nv_profile.specs.Profile.{IsNoProfile, IsProfileText};
ghost use Rattle.save_device.specs.Memory.{state_of};
ghost use Rattle.slot_store.specs.Slots.{IsCapacity};
ghost use Rattle.whole_lives.specs.Lives.{Formats, Restores};

use ddr4_timing::timing::Checked;
use interleave_map::cells::line_count;
use line_memory::Line;
use nv_profile::{Profile, read_profile};
use reply_codes::{
    DEVICE, DONE, NO_MEMORY, ROOM, SIZE, Told, profile_code, restore_code, restore_told,
};
use save_device::{MemoryDevice, SaveDevice};
use slot_store::{device_size, format, restore};
use std::alloc::{AllocError, Global};

/// How many lines a profile has; they make whole pages.
pub(crate) fn capacity_of(checked: &Checked) -> usize
    ensures is { result ≡ lines_of checked.now.geometry }
    ensures capacity { IsCapacity result }
{
    line_count(checked) as usize
}

/// The profile of a text, or what is told where it is none.
pub(crate) fn profile_of(alloc: Global, text: &[u8]) -> Result<Profile, Told>
    ensures ok { IfOk result (λ profile. IsProfileText text.now profile) }
    ensures refused { IfErr result (λ told. (told.code ≢ 0) × (told.code ≢ 10)) }
    ensures no_profile { IfErr result (λ told. told.code ≡ 2 → IsNoProfile text.now) }
{
    match read_profile(alloc, text) {
        Ok(profile) => Ok(profile),
        Err(fault) => Err(Told::code(profile_code(fault))),
    }
}

/// A device in memory with these bytes.
pub(crate) fn device_of(alloc: Global, bytes: &[u8]) -> Option<MemoryDevice>
    ensures { IfSome result (λ device. (state_of device).bytes ≡ bytes.now) }
{
    let Ok(bytes) = bytes.to_vec(alloc) else {
        return None;
    };
    MemoryDevice::new(alloc, bytes).ok()
}

/// The bytes of a device in memory.
pub(crate) fn bytes_of(alloc: Global, device: &mut MemoryDevice) -> Result<Vec<u8>, AllocError>
    ensures { IfOk result (λ bytes. bytes.items ≡ (state_of device.old).bytes) }
{
    let mut bytes = Vec::from_elem(alloc, 0, device.len())?;
    let Ok(()) = device.read(0, &mut bytes) else {
        unreachable!();
    };
    Ok(bytes)
}

/// Makes the bytes a store of zero lines for the profile of a text. What is refused is told, and no byte has changed.
pub fn format_store(alloc: Global, text: &[u8], store: &mut [u8]) -> Told
    ensures formats { result.code ≡ 0 → Formats text.now store.old store.new }
    ensures no_profile { result.code ≡ 2 → IsNoProfile text.now }
    ensures kept { result.code ≢ 0 → store.new ≡ store.old }
{
    let profile = match profile_of(alloc, text) {
        Ok(profile) => profile,
        Err(told) => return told,
    };
    let lines = capacity_of(&profile.checked);
    if store.len() != device_size(lines) {
        return Told::with(SIZE, device_size(lines) as u64, 0);
    }
    let Some(mut device) = device_of(alloc, store) else {
        return Told::code(NO_MEMORY);
    };
    if format(&mut device, lines).is_err() {
        return Told::code(DEVICE);
    }
    let Ok(bytes) = bytes_of(alloc, &mut device) else {
        return Told::code(NO_MEMORY);
    };
    store.copy_from_slice(&bytes);
    Told::code(DONE)
}

/// What the bytes restore to: its head is told, and its lines are put into a buffer of as many. Else the buffer stays.
pub fn restore_store(alloc: Global, text: &[u8], bytes: &[u8], into: &mut [Line]) -> Told
    ensures restores { (result.code ≡ 0) ⊎ (result.code ≡ 10)
        → Restores text.now bytes.now result into.new }
    ensures no_profile { result.code ≡ 2 → IsNoProfile text.now }
    ensures kept { result.code ≢ 0 → result.code ≢ 10 → into.new ≡ into.old }
{
    let profile = match profile_of(alloc, text) {
        Ok(profile) => profile,
        Err(told) => return told,
    };
    let lines = capacity_of(&profile.checked);
    if into.len() != lines {
        return Told::with(ROOM, lines as u64, 0);
    }
    if bytes.len() != device_size(lines) {
        return Told::with(SIZE, device_size(lines) as u64, 0);
    }
    let Some(mut device) = device_of(alloc, bytes) else {
        return Told::code(NO_MEMORY);
    };
    match restore(alloc, &mut device, lines) {
        Ok(restored) => {
            into.copy_from_slice(&restored.lines);
            restore_told(restored.head)
        }
        Err(error) => Told::code(restore_code(error)),
    }
}
