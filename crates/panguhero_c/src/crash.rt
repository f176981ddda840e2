// The calls for crash tests of a caller's own program, as C sees them.
ghost use Rattle.std.specs.Prelude.{◌≡◌, ◌≢◌, length, None};
ghost use Rattle.slot_store.specs.Slots.{device_size};
ghost use Rattle.save_device.specs.declared.memory.Pick.{Pick};
ghost use Rattle.panguhero_c.specs.Calls.{CallsOn, IfOpened, IsNoPick, IsPick, LeavesBytes, StopsAfter, line_count_in, memory_in};
ghost use Rattle.reply_codes.specs.Codes.{told_by, told_code};

use crate::calls::pick_of;
use crate::exports::tell;
use crate::handle::Handle;
use reply_codes::{DONE, IN_FILE, NO_HANDLE, NO_PICK, Numbers, SIZE, Told};
use std::alloc::Global;

/// From now on the device passes so many calls and fails each later one.
#[unsafe(no_mangle)]
pub extern "C" fn ph_stop_after(
    alloc: Global,
    handle: &mut Handle,
    calls: u64,
    numbers: &mut Numbers,
) -> u32
    ensures { CallsOn (told_by result numbers.new)
        (λ old later. (told_by result numbers.new ≡ told_code 0)
        × StopsAfter calls old.life later.life)
        handle.old.boxed.value handle.new.boxed.value }
{
    let Some(mut opened) = handle.take(alloc) else {
        return tell(Told::code(NO_HANDLE), numbers);
    };
    opened.stop_after(calls);
    handle.put(opened);
    tell(Told::code(DONE), numbers)
}

/// Stops the module here, as a loss of power that nothing saves, and closes the handle: the bytes that the stop leaves of the device,
/// into a buffer of that many. A device in a file has none to be told. What the device hadn't settled is picked: 0 as of the last sync, 1 as of the last write, 2 this byte.
#[unsafe(no_mangle)]
pub extern "C" fn ph_stopped(
    alloc: Global,
    handle: &mut Handle,
    pick: u32,
    byte: u32,
    into: &mut [u8],
    numbers: &mut Numbers,
) -> u32
    ensures stops { result ≡ 0 → IfOpened handle.old.boxed.value
        (λ old. (picked : Pick) × IsPick pick byte picked
        × LeavesBytes picked into.new old.life) }
    ensures closes { result ≡ 0 → handle.new.boxed.value ≡ None }
    ensures closed { handle.old.boxed.value ≡ None → result ≡ 8 }
    ensures open { result ≡ 8 → handle.old.boxed.value ≡ None }
    ensures no_pick { result ≡ 13 → IsNoPick pick byte }
    ensures size { result ≡ 4 → IfOpened handle.old.boxed.value
        (λ old. (length into.old ≢ device_size (line_count_in old.life))
        × (numbers.new.first ≡ device_size (line_count_in old.life))) }
    ensures file { result ≡ 14 → IfOpened handle.old.boxed.value
        (λ old. memory_in old.life ≡ None) }
    ensures others { result ≢ 4 → result ≢ 8 → result ≢ 13 → result ≢ 14 → result ≡ 0 }
    ensures kept { result ≢ 0
        → (handle.new.boxed.value ≡ handle.old.boxed.value) × (into.new ≡ into.old) }
{
    let Some(opened) = handle.take(alloc) else {
        return tell(Told::code(NO_HANDLE), numbers);
    };
    let Some(pick) = pick_of(pick, byte) else {
        handle.put(opened);
        return tell(Told::code(NO_PICK), numbers);
    };
    let size = opened.store_length();
    if into.len() != size {
        handle.put(opened);
        return tell(Told::with(SIZE, size as u64, 0), numbers);
    }
    if !opened.is_in_memory() {
        handle.put(opened);
        return tell(Told::code(IN_FILE), numbers);
    }
    Box::into_inner(opened).stopped(pick, into);
    tell(Told::with(DONE, size as u64, 0), numbers)
}
