// The calls on modes, energy and saves, as C sees them.
ghost use Rattle.std.specs.Prelude.{◌≡◌};
ghost use Rattle.panguhero_c.specs.Calls.{Arms, CallsOn, Disarms, MakesStep, Persists, ReadsGauge, Senses, TellsAccepted, TellsMode, TellsSizes, WorksAll};
ghost use Rattle.reply_codes.specs.Codes.{told_by};

use crate::exports::tell;
use crate::handle::Handle;
use reply_codes::{NO_HANDLE, Numbers, Told};
use std::alloc::Global;

/// How many writes were accepted. Code 0 comes with it.
#[unsafe(no_mangle)]
pub extern "C" fn ph_accepted(alloc: Global, handle: &mut Handle, numbers: &mut Numbers) -> u32
    ensures { CallsOn (told_by result numbers.new)
        (λ old later. (later ≡ old) × TellsAccepted (told_by result numbers.new) old.life)
        handle.old.boxed.value handle.new.boxed.value }
{
    let Some(opened) = handle.take(alloc) else {
        return tell(Told::code(NO_HANDLE), numbers);
    };
    let told = opened.accepted();
    handle.put(opened);
    tell(told, numbers)
}

/// What the module does with writes. Code 0 comes with the mode's number.
#[unsafe(no_mangle)]
pub extern "C" fn ph_mode(alloc: Global, handle: &mut Handle, numbers: &mut Numbers) -> u32
    ensures { CallsOn (told_by result numbers.new)
        (λ old later. (later ≡ old) × TellsMode (told_by result numbers.new) old.life)
        handle.old.boxed.value handle.new.boxed.value }
{
    let Some(opened) = handle.take(alloc) else {
        return tell(Told::code(NO_HANDLE), numbers);
    };
    let told = opened.mode();
    handle.put(opened);
    tell(told, numbers)
}

/// How many lines the module has, and how many bytes its device. Code 0 comes with both.
#[unsafe(no_mangle)]
pub extern "C" fn ph_sizes(alloc: Global, handle: &mut Handle, numbers: &mut Numbers) -> u32
    ensures { CallsOn (told_by result numbers.new)
        (λ old later. (later ≡ old) × TellsSizes (told_by result numbers.new) old.life)
        handle.old.boxed.value handle.new.boxed.value }
{
    let Some(opened) = handle.take(alloc) else {
        return tell(Told::code(NO_HANDLE), numbers);
    };
    let told = opened.sizes();
    handle.put(opened);
    tell(told, numbers)
}

/// Issues one command of each channel, where it has one. Code 0 comes with how many were issued.
#[unsafe(no_mangle)]
pub extern "C" fn ph_work(alloc: Global, handle: &mut Handle, numbers: &mut Numbers) -> u32
    ensures { CallsOn (told_by result numbers.new)
        (λ old later. WorksAll (told_by result numbers.new) old.life later.life)
        handle.old.boxed.value handle.new.boxed.value }
{
    let Some(mut opened) = handle.take(alloc) else {
        return tell(Told::code(NO_HANDLE), numbers);
    };
    let told = opened.work();
    handle.put(opened);
    tell(told, numbers)
}

/// Makes the write of this number persistent, by a save where that is needed. Code 0 comes with the mark, and says that it is.
#[unsafe(no_mangle)]
pub extern "C" fn ph_persist(
    alloc: Global,
    handle: &mut Handle,
    number: u64,
    numbers: &mut Numbers,
) -> u32
    ensures { CallsOn (told_by result numbers.new)
        (λ old later. Persists number (told_by result numbers.new)
        old.life later.life)
        handle.old.boxed.value handle.new.boxed.value }
{
    let Some(mut opened) = handle.take(alloc) else {
        return tell(Told::code(NO_HANDLE), numbers);
    };
    let told = opened.persist(number);
    handle.put(opened);
    tell(told, numbers)
}

/// Sets the level of the gauge, which the module reads. Code 0 comes with the reading and the mode.
#[unsafe(no_mangle)]
pub extern "C" fn ph_set_energy(
    alloc: Global,
    handle: &mut Handle,
    level: u64,
    numbers: &mut Numbers,
) -> u32
    ensures { CallsOn (told_by result numbers.new)
        (λ old later. Senses level (told_by result numbers.new)
        old.life later.life)
        handle.old.boxed.value handle.new.boxed.value }
{
    let Some(mut opened) = handle.take(alloc) else {
        return tell(Told::code(NO_HANDLE), numbers);
    };
    let told = opened.set_energy(level);
    handle.put(opened);
    tell(told, numbers)
}

/// The module reads the gauge as it is. Code 0 comes with the reading and the mode.
#[unsafe(no_mangle)]
pub extern "C" fn ph_sense(alloc: Global, handle: &mut Handle, numbers: &mut Numbers) -> u32
    ensures { CallsOn (told_by result numbers.new)
        (λ old later. ReadsGauge (told_by result numbers.new)
        old.life later.life)
        handle.old.boxed.value handle.new.boxed.value }
{
    let Some(mut opened) = handle.take(alloc) else {
        return tell(Told::code(NO_HANDLE), numbers);
    };
    let told = opened.sense();
    handle.put(opened);
    tell(told, numbers)
}

/// Arms: from then on each write is persistent once it is accepted. Code 0 comes with 1 where it was armed already, else 0.
#[unsafe(no_mangle)]
pub extern "C" fn ph_arm(alloc: Global, handle: &mut Handle, numbers: &mut Numbers) -> u32
    ensures { CallsOn (told_by result numbers.new)
        (λ old later. Arms (told_by result numbers.new)
        old.life later.life)
        handle.old.boxed.value handle.new.boxed.value }
{
    let Some(mut opened) = handle.take(alloc) else {
        return tell(Told::code(NO_HANDLE), numbers);
    };
    let told = opened.arm();
    handle.put(opened);
    tell(told, numbers)
}

/// Begins to disarm. Code 0 comes with 1 where it was disarmed already, else 0.
#[unsafe(no_mangle)]
pub extern "C" fn ph_disarm(alloc: Global, handle: &mut Handle, numbers: &mut Numbers) -> u32
    ensures { CallsOn (told_by result numbers.new)
        (λ old later. Disarms (told_by result numbers.new)
        old.life later.life)
        handle.old.boxed.value handle.new.boxed.value }
{
    let Some(mut opened) = handle.take(alloc) else {
        return tell(Told::code(NO_HANDLE), numbers);
    };
    let told = opened.disarm();
    handle.put(opened);
    tell(told, numbers)
}

/// Makes one step of a save, which is begun where none runs. Code 0 ends it, with the image's generation and its count.
#[unsafe(no_mangle)]
pub extern "C" fn ph_save_step(alloc: Global, handle: &mut Handle, numbers: &mut Numbers) -> u32
    ensures { CallsOn (told_by result numbers.new)
        (λ old later. MakesStep (told_by result numbers.new)
        old.life later.life)
        handle.old.boxed.value handle.new.boxed.value }
{
    let Some(mut opened) = handle.take(alloc) else {
        return tell(Told::code(NO_HANDLE), numbers);
    };
    let told = opened.step();
    handle.put(opened);
    tell(told, numbers)
}
