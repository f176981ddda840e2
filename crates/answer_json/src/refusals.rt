// What is told of a refusal.
ghost use Rattle.std.specs.Prelude.{◌≡◌, ◌++◌, codes};
ghost use Rattle.answer_json.specs.Refusals.{arm_refused, read_refused, refused, restore_refused, slot_number, too_low, write_refused};
ghost use Rattle.answer_json.specs.Told.{IsTold};

use crate::told::{Told, five, four, name, number, six, word};
use arm_state::{ArmRefusal, ReadRefusal, WriteRefusal};
use slot_store::{RestoreError, Slot};

// The call, and the number and the name of its refusal.
fn told_refused(call: &'static str, code: u64, reason: &'static str) -> Told
    ensures { IsTold (codes "refused") (refused call.now code reason.now) result }
{
    four(
        "refused",
        word("refused"),
        name("call", call),
        number("code", code),
        name("reason", reason),
    )
}

// The same with the energy that is needed, and that there is.
fn told_too_low(call: &'static str, code: u64, reason: &'static str, need: u64, has: u64) -> Told
    ensures { IsTold (codes "refused")
        (refused call.now code reason.now ++ too_low need has) result }
{
    six(
        "refused",
        word("refused"),
        name("call", call),
        number("code", code),
        name("reason", reason),
        number("need", need),
        number("has", has),
    )
}

/// Of a write.
pub(crate) fn told_of_write(refusal: WriteRefusal) -> Told
    ensures { IsTold (codes "refused") (write_refused refusal) result }
{
    match refusal {
        WriteRefusal::Full => told_refused("write", 1, "Full"),
        WriteRefusal::EnergyLow { need, has } => told_too_low("write", 2, "EnergyLow", need, has),
        WriteRefusal::Disarming => told_refused("write", 3, "Disarming"),
        WriteRefusal::Closed => told_refused("write", 4, "Closed"),
        WriteRefusal::TrailFull => told_refused("write", 5, "TrailFull"),
        WriteRefusal::NoSuchLine => told_refused("write", 6, "NoSuchLine"),
    }
}

/// Of a read.
pub(crate) fn told_of_read(refusal: ReadRefusal) -> Told
    ensures { IsTold (codes "refused") (read_refused refusal) result }
{
    match refusal {
        ReadRefusal::Full => told_refused("read", 1, "Full"),
        ReadRefusal::Closed => told_refused("read", 4, "Closed"),
        ReadRefusal::NoSuchLine => told_refused("read", 6, "NoSuchLine"),
    }
}

/// Of arming, disarming or a save, by the name of the call.
pub(crate) fn told_of_arm(call: &'static str, refusal: ArmRefusal) -> Told
    ensures { IsTold (codes "refused") (arm_refused call.now refusal) result }
{
    match refusal {
        ArmRefusal::NeedEnergy { need, has } => told_too_low(call, 1, "NeedEnergy", need, has),
        ArmRefusal::SaveRunning => told_refused(call, 2, "SaveRunning"),
        ArmRefusal::Unsettled => told_refused(call, 3, "Unsettled"),
        ArmRefusal::Disarming => told_refused(call, 4, "Disarming"),
        ArmRefusal::Closed => told_refused(call, 5, "Closed"),
        ArmRefusal::Spent => told_refused(call, 6, "Spent"),
        ArmRefusal::Device => told_refused(call, 7, "Device"),
    }
}

fn number_of(slot: Slot) -> u64
    ensures { result ≡ slot_number slot }
{
    match slot {
        Slot::First => 0,
        Slot::Second => 1,
    }
}

/// Of a restore.
pub(crate) fn told_of_restore(error: RestoreError) -> Told
    ensures { IsTold (codes "refused") (restore_refused error) result }
{
    match error {
        RestoreError::NoImage => told_refused("restore", 1, "NoImage"),
        RestoreError::Damaged { slot } => five(
            "refused",
            word("refused"),
            name("call", "restore"),
            number("code", 2),
            name("reason", "Damaged"),
            number("slot", number_of(slot)),
        ),
        RestoreError::WrongSize => told_refused("restore", 3, "WrongSize"),
        RestoreError::Device => told_refused("restore", 4, "Device"),
        RestoreError::Memory => told_refused("restore", 5, "Memory"),
    }
}
