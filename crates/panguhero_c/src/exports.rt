// The calls, as C sees them.
ghost use Rattle.std.specs.Prelude.{◌≡◌, ◌≢◌, ℕ, List, length, None};
ghost use Rattle.nv_profile.specs.Profile.{IsNoProfile};
ghost use Rattle.panguhero_c.specs.Calls.{CallsOn, Collects, HasText, IfOpened, LosesMains, OpensNew, Reads, Saves, TellsMark, Writes};
ghost use Rattle.reply_codes.specs.Codes.{told_by};

use crate::handle::Handle;
use crate::opened::OpenModule;
use channel_port::Ticket;
use reply_codes::{ALREADY_OPEN, DONE, NO_HANDLE, NO_MEMORY, Numbers, Told, text_of};
use std::alloc::Global;

// Tells C the numbers, and gives the code.
pub(crate) fn tell(told: Told, numbers: &mut Numbers) -> u32
    ensures { told_by result numbers.new ≡ told }
{
    *numbers = told.numbers;
    told.code
}

/// Opens a module of the profile of a text (TOML) on a new device in memory, formatted, with a gauge that shows 0. The handle has to be
/// a closed one, and stays so where the code isn't 0.
#[unsafe(no_mangle)]
pub extern "C" fn ph_open_memory(alloc: Global, handle: &mut Handle, profile: &[u8]) -> u32
    ensures opens { result ≡ 0
        → IfOpened handle.new.boxed.value (λ opened. OpensNew profile.now opened.life) }
    ensures no_profile { result ≡ 2 → IsNoProfile profile.now }
    ensures already { handle.old.boxed.value ≢ None → result ≡ 9 }
    ensures kept { result ≢ 0 → handle.new.boxed.value ≡ handle.old.boxed.value }
{
    if handle.is_open() {
        return ALREADY_OPEN;
    }
    let opened = match OpenModule::on_memory(alloc, profile) {
        Ok(opened) => opened,
        Err(code) => return code,
    };
    match Box::new(alloc, opened) {
        Ok(opened) => {
            handle.put(opened);
            DONE
        }
        Err(_) => NO_MEMORY,
    }
}

/// Closes a module: its memory is given back, and what no device of its own holds is lost.
#[unsafe(no_mangle)]
pub extern "C" fn ph_close(alloc: Global, handle: &mut Handle) -> u32
    ensures closed { handle.new.boxed.value ≡ None }
    ensures none { handle.old.boxed.value ≡ None → result ≡ 8 }
    ensures done { handle.old.boxed.value ≢ None → result ≡ 0 }
{
    match handle.take(alloc) {
        Some(_) => DONE,
        None => NO_HANDLE,
    }
}

/// Writes a line of 64 bytes. Code 0 comes with the write's number and the mark.
#[unsafe(no_mangle)]
pub extern "C" fn ph_write(
    alloc: Global,
    handle: &mut Handle,
    line: u64,
    bytes: &[u8],
    numbers: &mut Numbers,
) -> u32
    ensures { CallsOn (told_by result numbers.new)
        (λ old later. Writes line bytes.now (told_by result numbers.new) old.life later.life)
        handle.old.boxed.value handle.new.boxed.value }
{
    let Some(mut opened) = handle.take(alloc) else {
        return tell(Told::code(NO_HANDLE), numbers);
    };
    let told = opened.write(line, bytes);
    handle.put(opened);
    tell(told, numbers)
}

/// Reads a line of the memory after all accepted writes into a buffer of 64 bytes. Where its bytes are to come with a command of
/// its channel, that is worked in `wait` turns at most; behind these code 23 comes with the read's channel and its number there, for
/// `ph_collect`.
#[unsafe(no_mangle)]
pub extern "C" fn ph_read(
    alloc: Global,
    handle: &mut Handle,
    line: u64,
    wait: u64,
    into: &mut [u8],
    numbers: &mut Numbers,
) -> u32
    ensures reads { CallsOn (told_by result numbers.new)
        (λ old later. Reads line wait into.old into.new (told_by result numbers.new)
        old.life later.life)
        handle.old.boxed.value handle.new.boxed.value }
    ensures closed { handle.old.boxed.value ≡ None → into.new ≡ into.old }
{
    let Some(mut opened) = handle.take(alloc) else {
        return tell(Told::code(NO_HANDLE), numbers);
    };
    let told = opened.read(line, wait, into);
    handle.put(opened);
    tell(told, numbers)
}

/// The bytes of a read that was answered to wait, into a buffer of 64 bytes: by its channel and its number there, which came with
/// that answer. Code 0 comes with the read's line and how many writes were accepted before it; code 23 where its command is still to
/// come, which `ph_work` issues. A read is collected once.
#[unsafe(no_mangle)]
pub extern "C" fn ph_collect(
    alloc: Global,
    handle: &mut Handle,
    channel: u64,
    number: u64,
    into: &mut [u8],
    numbers: &mut Numbers,
) -> u32
    ensures collects { CallsOn (told_by result numbers.new)
        (λ old later. Collects (record { channel = channel; serial = number })
        into.old into.new (told_by result numbers.new) old.life later.life)
        handle.old.boxed.value handle.new.boxed.value }
    ensures closed { handle.old.boxed.value ≡ None → into.new ≡ into.old }
{
    let Some(mut opened) = handle.take(alloc) else {
        return tell(Told::code(NO_HANDLE), numbers);
    };
    let serial = u128::from(number);
    let told = opened.collect(Ticket { channel, serial }, into);
    handle.put(opened);
    tell(told, numbers)
}

/// Saves all accepted writes to the end, or what is left of a save that runs. Code 0 comes with the image's generation and its count.
#[unsafe(no_mangle)]
pub extern "C" fn ph_save(alloc: Global, handle: &mut Handle, numbers: &mut Numbers) -> u32
    ensures { CallsOn (told_by result numbers.new)
        (λ old later. Saves (told_by result numbers.new) old.life later.life)
        handle.old.boxed.value handle.new.boxed.value }
{
    let Some(mut opened) = handle.take(alloc) else {
        return tell(Told::code(NO_HANDLE), numbers);
    };
    let told = opened.save();
    handle.put(opened);
    tell(told, numbers)
}

/// Mains are lost: an armed module saves its accepted writes on backup. Code 0 comes with the image's generation and its count.
#[unsafe(no_mangle)]
pub extern "C" fn ph_power_loss(alloc: Global, handle: &mut Handle, numbers: &mut Numbers) -> u32
    ensures { CallsOn (told_by result numbers.new)
        (λ old later. LosesMains (told_by result numbers.new) old.life later.life)
        handle.old.boxed.value handle.new.boxed.value }
{
    let Some(mut opened) = handle.take(alloc) else {
        return tell(Told::code(NO_HANDLE), numbers);
    };
    let told = opened.lose();
    handle.put(opened);
    tell(told, numbers)
}

/// How many writes are persistent: exactly those with a number below it. Code 0 comes with it.
#[unsafe(no_mangle)]
pub extern "C" fn ph_mark(alloc: Global, handle: &mut Handle, numbers: &mut Numbers) -> u32
    ensures { CallsOn (told_by result numbers.new)
        (λ old later. (later ≡ old) × TellsMark (told_by result numbers.new) old.life)
        handle.old.boxed.value handle.new.boxed.value }
{
    let Some(opened) = handle.take(alloc) else {
        return tell(Told::code(NO_HANDLE), numbers);
    };
    let told = Told::with(DONE, opened.mark(), 0);
    handle.put(opened);
    tell(told, numbers)
}

/// The words of a code, as far as there is room. It answers how many bytes they are.
#[unsafe(no_mangle)]
pub extern "C" fn ph_text(code: u32, into: &mut [u8]) -> usize
    ensures { (words : List ℕ) × (result ≡ length words) × HasText words into.old into.new }
{
    let words = text_of(code).as_bytes();
    let room = words.len().min(into.len());
    into[..room].copy_from_slice(&words[..room]);
    words.len()
}
