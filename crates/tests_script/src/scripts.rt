// What scripts write.
use crate::running::{answers_on, are_answered, is_answered};
use nv_profile::{TINY, read_profile};
use nv_script::ScriptFault;
use run_command::run_on_maps;
use std::alloc::Global;
use std::process::Abort;

const AT_REST: [(&str, &str); 6] = [
    ("", ""),
    (
        "write 0 11/read 127/write 128 00/read 128",
        "refused write 4 Closed/refused read 4 Closed/refused write 6 NoSuchLine/refused read 6 NoSuchLine",
    ),
    (
        "sense 7/arm/disarm/lose",
        "level 7 none/refused arm 5 Closed/refused disarm 5 Closed/lost already",
    ),
    (
        "work 0 1/save/step/mark",
        "0 idle/refused save 5 Closed/refused save 5 Closed/mark 0",
    ),
    (
        "lie 3/fuse 2/fuse off/onefault 1",
        "lie 3/fuse 2/fuse off/onefault 1",
    ),
    (
        "restore/restore new/restore torn00 xor",
        "refused restore 1 NoImage/refused restore 1 NoImage/refused restore 1 NoImage",
    ),
];

#[test]
fn where_no_life_runs(rt: HostRuntime) {
    are_answered(&rt, &AT_REST);
}

const DISARMED: [(&str, &str); 7] = [
    (
        "/#é nothing/   /  format / write   0007  0f//read 7",
        "formatted/accepted 0 mark 0/line 7 = 0f",
    ),
    (
        "format/write 127 aB/save/write 127 Ff/read 127/restore/read 127/write 1 01/save",
        "formatted/accepted 0 mark 0/saved 2 1/accepted 1 mark 1/line 127 = ff/restored 2 1 Complete/line 127 = ab/accepted 1 mark 1/saved 3 2",
    ),
    (
        "format/step/step/step/write 127 33/step/step/step/step/step/restore/read 127",
        "formatted/step close/step sync/step page 0/accepted 0 mark 0/step page 1/step header/step sync/step open/saved 2 0/restored 2 0 Complete/line 127 = 00",
    ),
    (
        "format/write 69 44/work 1 2/save/restore old xor/read 69",
        "formatted/accepted 0 mark 0/1 0 ACT 0 0 0 1/1 16 WR 0 0 0 2/saved 2 1/restored 2 1 Complete/line 69 = 44",
    ),
    (
        "format/write 0 11/write 64 22/write 2 33/work 0 7",
        "formatted/accepted 0 mark 0/accepted 1 mark 0/accepted 2 mark 0/0 0 ACT 0 0 0 0/0 16 WR 0 0 0 0/0 22 WR 0 0 0 1/0 56 PRE 0 0 0/0 72 ACT 0 0 0 1/0 88 WR 0 0 0 0/0 idle",
    ),
    (
        "format/write 0 11/write 127 22/step/step/step/step/step/save/mark/restore/read 127",
        "formatted/accepted 0 mark 0/accepted 1 mark 0/step close/step sync/waiting/waiting/waiting/saved 2 2/mark 2/restored 2 2 Complete/line 127 = 22",
    ),
    (
        "mark/work 0 3/step/format/step/restore/mark/save/mark",
        "mark 0/0 idle/refused save 5 Closed/formatted/step close/restored 1 0 Complete/mark 0/saved 2 0/mark 0",
    ),
];

#[test]
fn while_disarmed(rt: HostRuntime) {
    are_answered(&rt, &DISARMED);
}

const ARMED: [(&str, &str); 8] = [
    (
        "format/sense 3339/arm/sense 3340/arm/arm/disarm/disarm",
        "formatted/level 3339 disarmed/refused arm 1 NeedEnergy 3340 3339/level 3340 disarmed/armed/armed already/disarming/refused disarm 4 Disarming",
    ),
    (
        "format/sense 3853/arm/write 0 11/sense 3854/write 0 11",
        "formatted/level 3853 disarmed/armed/refused write 2 EnergyLow 3854 3853/level 3854 armed/accepted 0 mark 1",
    ),
    (
        "format/sense 3854/arm/write 0 11/sense 3853/write 0 22/step/step/step/step/save/mark/restore",
        "formatted/level 3854 disarmed/armed/accepted 0 mark 1/level 3853 disarming/refused write 3 Disarming/step close/step sync/waiting/waiting/saved 2 1/mark 1/restored 2 1 Complete",
    ),
    (
        "format/write 0 11/fuse 7/save/sense 9000/arm/fuse off/save/arm",
        "formatted/accepted 0 mark 0/fuse 7/fault save/level 9000 disarmed/refused arm 3 Unsettled/fuse off/saved 2 1/armed",
    ),
    (
        "format/sense 9000/fuse 1/arm/restore old",
        "formatted/level 9000 disarmed/fuse 1/fault arm/restored 1 0 Complete",
    ),
    (
        "format/sense 9000/arm/write 0 11/disarm/save/disarm/restore new",
        "formatted/level 9000 disarmed/armed/accepted 0 mark 1/disarming/saved 2 1/disarmed already/restored 2 1 Complete",
    ),
    (
        "format/sense 9000/arm/disarm/sense 5000/save/sense 6000",
        "formatted/level 9000 disarmed/armed/disarming/level 9000 disarming/saved 2 0/level 6000 disarmed",
    ),
    (
        "format/sense 9000/arm/disarm/fuse 0/save/sense 5000",
        "formatted/level 9000 disarmed/armed/disarming/fuse 0/fault save/level 9000 stranded",
    ),
];

#[test]
fn while_armed(rt: HostRuntime) {
    are_answered(&rt, &ARMED);
}

const LOSSES: [(&str, &str); 9] = [
    (
        "format/write 0 11/lose/lose/restore/read 0",
        "formatted/accepted 0 mark 0/lost unsaved/lost already/restored 1 0 Complete/line 0 = 00",
    ),
    (
        "format/sense 9000/arm/write 0 11/write 1 22/work 1 2/lose/restore/read 0/read 1",
        "formatted/level 9000 disarmed/armed/accepted 0 mark 1/accepted 1 mark 2/1 0 ACT 0 0 0 0/1 16 WR 0 0 0 0/lost saved 2 2/restored 2 2 Complete/line 0 = 11/line 1 = 22",
    ),
    (
        "format/sense 9000/arm/lose/lose/write 0 11/write 128 11/read 0/work 0 1/arm/save/sense 1/mark",
        "formatted/level 9000 disarmed/armed/lost saved 2 0/lost already/refused write 4 Closed/refused write 6 NoSuchLine/refused read 4 Closed/0 idle/refused arm 5 Closed/refused save 5 Closed/level 9000 saved/mark 0",
    ),
    (
        "format/sense 9000/arm/write 0 11/lie 2000/lose/restore",
        "formatted/level 9000 disarmed/armed/accepted 0 mark 1/lie 2000/lost dark/restored 1 0 PossibleLoss",
    ),
    (
        "format/sense 9000/arm/write 0 11/lie 2000/read 0/mark/sense 9000/lose/restore",
        "formatted/level 9000 disarmed/armed/accepted 0 mark 1/lie 2000/line 0 = 11/mark 1/level 9000 armed/lost dark/restored 1 0 PossibleLoss",
    ),
    (
        "format/sense 9000/lie 2000/arm/write 0 11/lose",
        "formatted/level 9000 disarmed/lie 2000/armed/accepted 0 mark 1/lost dark",
    ),
    (
        "format/sense 9000/arm/write 0 11/lie 2000/save/write 1 22/lose",
        "formatted/level 9000 disarmed/armed/accepted 0 mark 1/lie 2000/saved 2 1/accepted 1 mark 2/lost dark",
    ),
    (
        "format/sense 9000/arm/write 0 11/fuse 3/lose/lose/restore new",
        "formatted/level 9000 disarmed/armed/accepted 0 mark 1/fuse 3/lost fault/lost already/restored 1 0 PossibleLoss",
    ),
    (
        "format/sense 9000/arm/step/step/step/write 127 33/step/step/step/step/step/lose/restore old xor/read 127",
        "formatted/level 9000 disarmed/armed/step close/step sync/step page 0/accepted 0 mark 1/step page 1/step header/step sync/step open/saved 2 0/lost saved 3 1/restored 3 1 Complete/line 127 = 33",
    ),
];

#[test]
fn losses_of_mains(rt: HostRuntime) {
    are_answered(&rt, &LOSSES);
}

// Whether a script is refused for its first line, with nothing written.
fn is_bad(alloc: Global, script: &[u8]) -> bool {
    let Ok(profile) = read_profile(alloc, TINY.as_bytes()) else {
        return false;
    };
    let mut text = Vec::new(alloc);
    match run_on_maps(alloc, &profile, script, &mut text) {
        Err(fault) => fault == ScriptFault::Line { number: 1 } && text.is_empty(),
        Ok(_) => false,
    }
}

#[test]
fn a_script_with_a_bad_line(rt: HostRuntime) {
    assert!(rt; is_bad(rt.alloc(), b"work 2 1\nformat\n"));
    assert!(rt; is_bad(rt.alloc(), b"onefault 0\nformat\n"));
}

// Whether a script is broken off because its writer takes no more, with these bytes written.
fn is_cut_off(alloc: Global, script: &[u8], written: [u8; 14]) -> bool {
    let Ok(profile) = read_profile(alloc, TINY.as_bytes()) else {
        return false;
    };
    let mut room = [0; 14];
    let mut writer = room.as_mut_slice();
    let is_told = match run_on_maps(alloc, &profile, script, &mut writer) {
        Err(fault) => fault == ScriptFault::Writer,
        Ok(_) => false,
    };
    is_told && room == written
}

#[test]
fn a_writer_that_takes_no_more(rt: HostRuntime) {
    let script = b"format\nformat\nformat\n";
    assert!(rt; is_cut_off(rt.alloc(), script, *b"formatted\nform"));
}

// Fails where a script doesn't answer these lines on the small profile with other text in place of some.
fn is_answered_with<R: Abort + AllocGlobal>(
    rt: &R,
    old: &str,
    new: &str,
    script: &str,
    wanted: &str,
) {
    let answers = match TINY.replace(rt.alloc(), old, new) {
        Ok(profile) => answers_on(rt.alloc(), profile.as_str(), script),
        Err(_) => None,
    };
    assert_eq!(*rt; answers.as_deref(), Some(wanted), "{new}");
}

#[test]
fn a_write_past_a_full_life(rt: HostRuntime) {
    is_answered_with(
        &rt,
        "trail = 1024",
        "trail = 2",
        "format/write 0 11/write 1 22/write 2 33/save/restore/write 2 33",
        "formatted/accepted 0 mark 0/accepted 1 mark 0/refused write 5 TrailFull/saved 2 2/restored 2 2 Complete/accepted 2 mark 2",
    );
}

// The writes that a finished save holds make room for as many more.
#[test]
fn a_write_behind_a_save_of_a_full_life(rt: HostRuntime) {
    is_answered_with(
        &rt,
        "trail = 1024",
        "trail = 2",
        "format/write 0 11/write 0 22/write 0 33/save/write 0 33",
        "formatted/accepted 0 mark 0/accepted 1 mark 0/refused write 5 TrailFull/saved 2 2/accepted 2 mark 2",
    );
    is_answered_with(
        &rt,
        "trail = 1024",
        "trail = 1",
        "format/sense 9000/arm/write 0 11/write 0 22/disarm/write 0 22/save/write 0 22/write 0 33/read 0",
        "formatted/level 9000 disarmed/armed/accepted 0 mark 1/refused write 5 TrailFull/disarming/refused write 3 Disarming/saved 2 1/accepted 1 mark 1/refused write 5 TrailFull/line 0 = 22",
    );
}

#[test]
fn the_map_of_the_profile(rt: HostRuntime) {
    let script = "format/write 69 44/work 0 1/work 1 1";
    is_answered_with(
        &rt,
        "map = \"lines\"",
        "map = \"xor\"",
        script,
        "formatted/accepted 0 mark 0/0 0 ACT 0 0 0 1/1 idle",
    );
    is_answered(
        &rt,
        script,
        "formatted/accepted 0 mark 0/0 idle/1 0 ACT 0 0 0 1",
    );
}

const MAPS: [(&str, &str); 2] = [
    (
        "format/restore old xor/write 69 44/work 0 1/work 1 1",
        "formatted/restored 1 0 Complete/accepted 0 mark 0/0 0 ACT 0 0 0 1/1 idle",
    ),
    (
        "format/restore old xor/restore/write 69 44/work 0 1/work 1 1",
        "formatted/restored 1 0 Complete/restored 1 0 Complete/accepted 0 mark 0/0 idle/1 0 ACT 0 0 0 1",
    ),
];

#[test]
fn the_map_of_a_restore(rt: HostRuntime) {
    are_answered(&rt, &MAPS);
    is_answered_with(
        &rt,
        "map = \"lines\"",
        "map = \"xor\"",
        "format/restore old lines/write 69 44/work 0 1/work 1 1",
        "formatted/restored 1 0 Complete/accepted 0 mark 0/0 idle/1 0 ACT 0 0 0 1",
    );
}

#[test]
fn a_channel_that_is_full(rt: HostRuntime) {
    is_answered(
        &rt,
        "format/write 0 11/write 0 11/write 0 11/write 0 11/write 0 11/write 0 11/write 0 11/write 0 11/write 0 11/write 128 11",
        "formatted/accepted 0 mark 0/accepted 1 mark 0/accepted 2 mark 0/accepted 3 mark 0/accepted 4 mark 0/accepted 5 mark 0/accepted 6 mark 0/accepted 7 mark 0/refused write 1 Full/refused write 6 NoSuchLine",
    );
}
