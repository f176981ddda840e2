// Modes and refusals as they are printed, what is refused first, and what moves a mode.
use crate::check::same;
use arm_state::{ArmRefusal, Mode, Move, SaveState, energy_refusal};
use std::fmt::Display;
use std::process::Abort;

// Fails where a value isn't printed so.
fn is_printed<R: Abort + AllocGlobal, T: Display>(rt: &R, value: &T, text: &str) {
    let printed = value.to_string(rt.alloc()).expect(rt, "memory");
    same(rt, printed.as_str(), text);
}

#[test]
fn modes_in_lower_case(rt: HostRuntime) {
    is_printed(&rt, &Mode::Disarmed, "disarmed");
    is_printed(&rt, &Mode::Armed, "armed");
    is_printed(&rt, &Mode::Disarming, "disarming");
    is_printed(&rt, &Mode::Stranded, "stranded");
    is_printed(&rt, &Mode::Closing, "closing");
    is_printed(&rt, &Mode::Saved, "saved");
}

#[test]
fn refusals_by_number(rt: HostRuntime) {
    let need = ArmRefusal::NeedEnergy {
        need: 3340,
        has: 3339,
    };
    same(&rt, energy_refusal(3340, 3339), Some(need));
    same(&rt, energy_refusal(3340, 3340), None);
    is_printed(&rt, &need, "1 NeedEnergy 3340 3339");
    is_printed(&rt, &ArmRefusal::SaveRunning, "2 SaveRunning");
    is_printed(&rt, &ArmRefusal::Unsettled, "3 Unsettled");
    is_printed(&rt, &ArmRefusal::Disarming, "4 Disarming");
    is_printed(&rt, &ArmRefusal::Closed, "5 Closed");
    is_printed(&rt, &ArmRefusal::Spent, "6 Spent");
    is_printed(&rt, &ArmRefusal::Device, "7 Device");
}

#[test]
fn the_first_refusal(rt: HostRuntime) {
    let all = SaveState {
        is_running: true,
        is_unsettled: true,
        is_spent: true,
    };
    same(&rt, Mode::Saved.arm_refusal(all), Some(ArmRefusal::Closed));
    same(
        &rt,
        Mode::Stranded.arm_refusal(all),
        Some(ArmRefusal::Disarming),
    );
    same(
        &rt,
        Mode::Disarmed.arm_refusal(all),
        Some(ArmRefusal::SaveRunning),
    );
    same(&rt, Mode::Armed.arm_refusal(all), None);
    same(
        &rt,
        Mode::Closing.disarm_refusal(),
        Some(ArmRefusal::Closed),
    );
    let spent = SaveState {
        is_running: false,
        ..all
    };
    same(
        &rt,
        Mode::Disarmed.arm_refusal(spent),
        Some(ArmRefusal::Unsettled),
    );
    same(
        &rt,
        Mode::Armed.save_refusal(spent),
        Some(ArmRefusal::Spent),
    );
    same(&rt, Mode::Stranded.save_refusal(spent), None);
}

#[test]
fn through_a_disarming(rt: HostRuntime) {
    let mut mode = Mode::Disarmed;
    for (cause, next) in [
        (Move::Arm, Mode::Armed),
        (Move::EndSave, Mode::Armed),
        (Move::RunLow, Mode::Disarming),
        (Move::FailSave, Mode::Stranded),
        (Move::EndSave, Mode::Disarmed),
        (Move::FailSave, Mode::Disarmed),
        (Move::CloseUnsaved, Mode::Closing),
        (Move::Arm, Mode::Closing),
    ] {
        mode = mode.after(cause);
        same(&rt, mode, next);
        same(
            &rt,
            mode.accepts_writes(),
            next == Mode::Disarmed || next == Mode::Armed,
        );
    }
}
