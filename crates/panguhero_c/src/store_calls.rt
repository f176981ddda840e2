// The calls on the bytes of a device, as C sees them.
ghost use Rattle.std.specs.Prelude.{◌≡◌, ◌≢◌, ◌⊎◌, None};
ghost use Rattle.nv_profile.specs.Profile.{IsNoProfile};
ghost use Rattle.panguhero_c.specs.Calls.{CallsOn, HandsChange, IfOpened, OpensStore, TellsStore};
ghost use Rattle.reply_codes.specs.Codes.{told_by};

use crate::exports::tell;
use crate::handle::Handle;
use crate::opened::OpenModule;
use crate::opening::OpenStore;
use reply_codes::{ALREADY_OPEN, NO_HANDLE, NO_MEMORY, Numbers, Told};
use std::alloc::Global;

/// Opens a module of the profile of a text on a device in memory with these bytes, which it restores. Code 0 comes with the image's
/// generation and its count; code 10 too, where acknowledged writes may be missing. Where nothing is saved there, and `format` is 1, it
/// formats the device. The handle has to be a closed one, and stays so where the code is another one.
#[unsafe(no_mangle)]
pub extern "C" fn ph_open_store(
    alloc: Global,
    handle: &mut Handle,
    profile: &[u8],
    bytes: &[u8],
    format: u32,
    numbers: &mut Numbers,
) -> u32
    ensures opens { (result ≡ 0) ⊎ (result ≡ 10) → IfOpened handle.new.boxed.value
        (λ opened. OpensStore profile.now bytes.now format (told_by result numbers.new)
        opened.life) }
    ensures no_profile { result ≡ 2 → IsNoProfile profile.now }
    ensures already { handle.old.boxed.value ≢ None → result ≡ 9 }
    ensures kept { result ≢ 0 → result ≢ 10
        → handle.new.boxed.value ≡ handle.old.boxed.value }
{
    if handle.is_open() {
        return tell(Told::code(ALREADY_OPEN), numbers);
    }
    let OpenStore { opened, told } = match OpenModule::on_store(alloc, profile, bytes, format) {
        Ok(store) => store,
        Err(told) => return tell(told, numbers),
    };
    match Box::new(alloc, opened) {
        Ok(opened) => {
            handle.put(opened);
            tell(told, numbers)
        }
        Err(_) => tell(Told::code(NO_MEMORY), numbers),
    }
}

/// The same on a device whose changes are noted in order, for a caller who keeps a store of its own with these bytes, as a file, and
/// makes them there: `ph_next_change` hands them out.
#[unsafe(no_mangle)]
pub extern "C" fn ph_open_noted(
    alloc: Global,
    handle: &mut Handle,
    profile: &[u8],
    bytes: &[u8],
    format: u32,
    numbers: &mut Numbers,
) -> u32
    ensures opens { (result ≡ 0) ⊎ (result ≡ 10) → IfOpened handle.new.boxed.value
        (λ opened. OpensStore profile.now bytes.now format (told_by result numbers.new)
        opened.life) }
    ensures no_profile { result ≡ 2 → IsNoProfile profile.now }
    ensures already { handle.old.boxed.value ≢ None → result ≡ 9 }
    ensures kept { result ≢ 0 → result ≢ 10
        → handle.new.boxed.value ≡ handle.old.boxed.value }
{
    if handle.is_open() {
        return tell(Told::code(ALREADY_OPEN), numbers);
    }
    let OpenStore { opened, told } = match OpenModule::on_noted(alloc, profile, bytes, format) {
        Ok(store) => store,
        Err(told) => return tell(told, numbers),
    };
    match Box::new(alloc, opened) {
        Ok(opened) => {
            handle.put(opened);
            tell(told, numbers)
        }
        Err(_) => tell(Told::code(NO_MEMORY), numbers),
    }
}

/// The oldest change of the device that is noted and wasn't handed out: its bytes into the beginning of a buffer. Code 0 comes with the
/// place where they are to be written, and how many they are; code 26 says that what was written is to be made durable, and code 27
/// that there is none. One with more bytes than the buffer has is code 15, with how many they are, and is handed out later.
#[unsafe(no_mangle)]
pub extern "C" fn ph_next_change(
    alloc: Global,
    handle: &mut Handle,
    into: &mut [u8],
    numbers: &mut Numbers,
) -> u32
    ensures hands { CallsOn (told_by result numbers.new)
        (λ old later. HandsChange into.old into.new (told_by result numbers.new)
        old.life later.life)
        handle.old.boxed.value handle.new.boxed.value }
    ensures closed { handle.old.boxed.value ≡ None → into.new ≡ into.old }
{
    let Some(mut opened) = handle.take(alloc) else {
        return tell(Told::code(NO_HANDLE), numbers);
    };
    let told = opened.next_change(into);
    handle.put(opened);
    tell(told, numbers)
}

/// The bytes that a device in memory holds, into a buffer of that many. Code 0 comes with how many they are.
#[unsafe(no_mangle)]
pub extern "C" fn ph_store_bytes(
    alloc: Global,
    handle: &mut Handle,
    into: &mut [u8],
    numbers: &mut Numbers,
) -> u32
    ensures tells { CallsOn (told_by result numbers.new)
        (λ old later. TellsStore into.old into.new (told_by result numbers.new)
        old.life later.life)
        handle.old.boxed.value handle.new.boxed.value }
    ensures closed { handle.old.boxed.value ≡ None → into.new ≡ into.old }
{
    let Some(mut opened) = handle.take(alloc) else {
        return tell(Told::code(NO_HANDLE), numbers);
    };
    let told = opened.store_bytes(into);
    handle.put(opened);
    tell(told, numbers)
}
