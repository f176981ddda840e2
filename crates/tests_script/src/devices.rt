// Scripts over devices that fail and lose their power.
use crate::running::{answers_on, are_answered, is_answered};
use nv_profile::TINY;
use std::alloc::{AllocError, Global};
use std::process::Abort;

// How many of its eight calls a save may make before it fails: a gate, a sync, two pages, the header, a sync, a gate, a sync.
const OF_SAVE: [&str; 8] = ["0", "1", "2", "3", "4", "5", "6", "7"];

// Fails where a script doesn't answer these lines, with the number of calls for each % in both.
fn is_answered_at<R: Abort + AllocGlobal>(rt: &R, calls: &str, script: &str, wanted: &str) {
    let script = script.replace(rt.alloc(), "%", calls);
    let wanted = wanted.replace(rt.alloc(), "%", calls);
    assert!(*rt; script.is_ok() && wanted.is_ok());
    if let (Ok(script), Ok(wanted)) = (script, wanted) {
        is_answered(rt, script.as_str(), wanted.as_str());
    }
}

#[test]
fn a_fault_is_answered_where_it_comes(rt: HostRuntime) {
    let script = "format/write 0 11/read 0/fuse %/save/write 1 22/read 1";
    for calls in OF_SAVE {
        is_answered_at(
            &rt,
            calls,
            script,
            "formatted/accepted 0 mark 0/line 0 = 11/fuse %/fault save/accepted 1 mark 0/line 1 = 22",
        );
    }
    is_answered_at(
        &rt,
        "8",
        script,
        "formatted/accepted 0 mark 0/line 0 = 11/fuse %/saved 2 1/accepted 1 mark 1/line 1 = 22",
    );
}

#[test]
fn a_save_that_is_made_again(rt: HostRuntime) {
    for calls in OF_SAVE {
        is_answered_at(
            &rt,
            calls,
            "format/write 0 11/fuse %/save/fuse off/save/restore/read 0",
            "formatted/accepted 0 mark 0/fuse %/fault save/fuse off/saved 2 1/restored 2 1 Complete/line 0 = 11",
        );
    }
}

// Fails where one of the scripts doesn't answer the lines beside it on the small profile with two calls that may be made again.
fn are_answered_with_repeats<R: Abort + AllocGlobal>(rt: &R, cases: &[(&str, &str)]) {
    let profile = TINY
        .replace(rt.alloc(), "notices = 64\n", "notices = 64\nretries = 2\n")
        .expect(rt, "memory");
    for (script, wanted) in cases {
        let answers = answers_on(rt.alloc(), profile.as_str(), script);
        assert_eq!(*rt; answers.as_deref(), Some(*wanted), "{script}");
    }
}

// With two calls that may be made again: the energy for them; a device that fails for ever in a loss of mains and in the save of a
// disarming; one that fails once there; and the saves that make no call again.
const REPEATS: [(&str, &str); 5] = [
    (
        "format/sense 5341/arm/sense 5342/arm",
        "formatted/level 5341 disarmed/refused arm 1 NeedEnergy 5342 5341/level 5342 disarmed/armed",
    ),
    (
        "format/sense 9000/arm/write 0 11/fuse 0/lose/restore",
        "formatted/level 9000 disarmed/armed/accepted 0 mark 1/fuse 0/lost fault/restored 1 0 PossibleLoss",
    ),
    (
        "format/sense 9000/arm/write 0 11/disarm/fuse 0/step/step/step/sense 9000/write 0 22/fuse off/save/mark/restore",
        "formatted/level 9000 disarmed/armed/accepted 0 mark 1/disarming/fuse 0/step retry/step retry/fault save/level 9000 stranded/refused write 3 Disarming/fuse off/saved 2 1/mark 1/restored 2 1 Complete",
    ),
    (
        "format/sense 9000/arm/write 0 11/disarm/fuse 1/step/step/fuse off/save/mark/restore",
        "formatted/level 9000 disarmed/armed/accepted 0 mark 1/disarming/fuse 1/step close/step retry/fuse off/saved 2 1/mark 1/restored 2 1 Complete",
    ),
    (
        "format/write 0 11/fuse 0/step/fuse off/save/sense 9000/arm/fuse 0/step",
        "formatted/accepted 0 mark 0/fuse 0/fault save/fuse off/saved 2 1/level 9000 disarmed/armed/fuse 0/fault save",
    ),
];

#[test]
fn calls_that_are_made_again(rt: HostRuntime) {
    are_answered_with_repeats(&rt, &REPEATS);
}

// One call that fails, in each of the closing saves: it is paid again or made on mains, and a gauge that lies by one unit less than
// that takes is dark behind the header.
const ONE_FAULTS_WITH_REPEATS: [(&str, &str); 4] = [
    (
        "format/sense 9000/arm/write 0 11/disarm/onefault 8/save/mark/restore",
        "formatted/level 9000 disarmed/armed/accepted 0 mark 1/disarming/onefault 8/saved 2 1/mark 1/restored 2 1 Complete",
    ),
    (
        "format/sense 9000/arm/write 0 11/lie 4841/onefault 3/lose/restore",
        "formatted/level 9000 disarmed/armed/accepted 0 mark 1/lie 4841/onefault 3/lost saved 2 1/restored 2 1 Complete",
    ),
    (
        "format/sense 9000/arm/write 0 11/lie 4840/onefault 3/lose/restore new",
        "formatted/level 9000 disarmed/armed/accepted 0 mark 1/lie 4840/onefault 3/lost dark/restored 2 1 Complete",
    ),
    (
        "format/sense 9000/arm/write 0 11/lie 4840/onefault 3/lose/restore old",
        "formatted/level 9000 disarmed/armed/accepted 0 mark 1/lie 4840/onefault 3/lost dark/restored 1 0 PossibleLoss",
    ),
];

#[test]
fn one_call_that_is_made_again(rt: HostRuntime) {
    are_answered_with_repeats(&rt, &ONE_FAULTS_WITH_REPEATS);
}

// One call that fails: in the save of a disarming; in place of another that was to; a write that is handed on all the same; behind
// calls that a fuse failed; and what a format and a restore end.
const ONE_FAULTS: [(&str, &str); 7] = [
    (
        "format/sense 9000/arm/write 0 11/disarm/onefault 8/save/write 0 22/mark/save/arm",
        "formatted/level 9000 disarmed/armed/accepted 0 mark 1/disarming/onefault 8/fault save/refused write 3 Disarming/mark 1/saved 2 1/armed",
    ),
    (
        "format/onefault 1/onefault 8/step/save/save",
        "formatted/onefault 1/onefault 8/step close/fault save/saved 2 0",
    ),
    (
        "format/write 0 11/onefault 7/save/restore new/read 0",
        "formatted/accepted 0 mark 0/onefault 7/fault save/restored 2 1 Complete/line 0 = 11",
    ),
    (
        "format/onefault 3/fuse 0/save/save/fuse off/save/save",
        "formatted/onefault 3/fuse 0/fault save/fault save/fuse off/fault save/saved 2 0",
    ),
    (
        "format/onefault 2/fuse 0/save/fuse off/save/save",
        "formatted/onefault 2/fuse 0/fault save/fuse off/fault save/saved 2 0",
    ),
    (
        "format/onefault 1/format/save",
        "formatted/onefault 1/formatted/saved 2 0",
    ),
    (
        "format/onefault 1/restore/save",
        "formatted/onefault 1/restored 1 0 Complete/saved 2 0",
    ),
];

#[test]
fn one_call_that_fails(rt: HostRuntime) {
    are_answered(&rt, &ONE_FAULTS);
}

// Whether two saves fail, after so many calls each, and what is restored after them is the old image, or where it may be, the
// new one.
fn leaves_an_image(
    alloc: Global,
    at: usize,
    further: usize,
    pick: &str,
) -> Result<bool, AllocError> {
    let script = format!(in alloc;
        "format/write 0 11/fuse {at}/save/fuse {further}/save/restore {pick}"
    )?;
    let faults = format!(in alloc;
        "formatted/accepted 0 mark 0/fuse {at}/fault save/fuse {further}/fault save/restored "
    )?;
    let Some(answers) = answers_on(alloc, TINY, script.as_str()) else {
        return Ok(false);
    };
    // from the settled close on the new image can't be there, until the gate is opened again
    let may_be_new = further == 7 || (at >= 6 && further < 2);
    Ok(match answers.strip_prefix(faults.as_str()) {
        Some(restored) => restored == "1 0 Complete" || (may_be_new && restored == "2 1 Complete"),
        None => false,
    })
}

// The first save fails at one call, and the second one after some further calls.
#[test]
fn a_save_after_a_failed_one(rt: HostRuntime) {
    for at in 0..8 {
        for further in 0..8 {
            for pick in ["old", "new", "torna5", "torn00"] {
                let leaves = leaves_an_image(rt.alloc(), at, further, pick);
                assert!(rt; leaves == Ok(true), "{at}, then {further}, {pick}");
            }
        }
    }
}

const ENDED_FUSES: [(&str, &str); 2] = [
    (
        "format/fuse 0/save/format/save",
        "formatted/fuse 0/fault save/formatted/saved 2 0",
    ),
    (
        "format/fuse 0/save/restore/save",
        "formatted/fuse 0/fault save/restored 1 0 Complete/saved 2 0",
    ),
];

#[test]
fn a_fuse_ends_with_the_life(rt: HostRuntime) {
    are_answered(&rt, &ENDED_FUSES);
}

// A fuse counts the calls of the lines behind it, and lines that call no device leave it.
const KEPT_FUSES: [(&str, &str); 4] = [
    (
        "format/write 0 11/fuse 7/write 1 22/read 0/mark/work 0 1/sense 0/save",
        "formatted/accepted 0 mark 0/fuse 7/accepted 1 mark 0/line 0 = 11/mark 0/0 0 ACT 0 0 0 0/level 0 disarmed/fault save",
    ),
    (
        "format/fuse 9/save/save",
        "formatted/fuse 9/saved 2 0/fault save",
    ),
    (
        "format/fuse 3/step/step/step/step",
        "formatted/fuse 3/step close/step sync/step page 0/fault save",
    ),
    (
        "format/sense 9000/write 0 11/fuse 5/arm/lose",
        "formatted/level 9000 disarmed/accepted 0 mark 0/fuse 5/armed/lost fault",
    ),
];

#[test]
fn a_fuse_counts_on(rt: HostRuntime) {
    are_answered(&rt, &KEPT_FUSES);
}

// The save's last sync fails: a stop may leave the gate of its slot closed, open or torn.
const PICKS: [(&str, &str); 5] = [
    (
        "format/write 0 11/fuse 7/save/restore/read 0",
        "formatted/accepted 0 mark 0/fuse 7/fault save/restored 1 0 Complete/line 0 = 00",
    ),
    (
        "format/write 0 11/fuse 7/save/restore old/read 0",
        "formatted/accepted 0 mark 0/fuse 7/fault save/restored 1 0 Complete/line 0 = 00",
    ),
    (
        "format/write 0 11/fuse 7/save/restore new/read 0",
        "formatted/accepted 0 mark 0/fuse 7/fault save/restored 2 1 Complete/line 0 = 11",
    ),
    (
        "format/write 0 11/fuse 7/save/restore torna5/read 0",
        "formatted/accepted 0 mark 0/fuse 7/fault save/restored 2 1 Complete/line 0 = 11",
    ),
    (
        "format/write 0 11/fuse 7/save/restore torn00/read 0",
        "formatted/accepted 0 mark 0/fuse 7/fault save/restored 1 0 Complete/line 0 = 00",
    ),
];

#[test]
fn what_a_pick_leaves(rt: HostRuntime) {
    are_answered(&rt, &PICKS);
}
