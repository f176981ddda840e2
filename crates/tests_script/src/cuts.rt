// A life that goes on in the room that it began with: ten saves of two writes each in a trail of two, on a device whose calls
// fail from any one on. What is expected is worked out from how many calls a save takes.
use crate::running::answers_on;
use nv_profile::TINY;
use std::alloc::Global;
use std::process::Abort;

const SAVES: u64 = 10;

/// How many calls of the device a save takes on the small profile.
const CALLS: u64 = 8;

// Two writes and a save, ten times, where so many calls are passed, and a restore behind a stop that leaves this.
fn script_of(alloc: Global, passed: u64, pick: &str) -> anyhow::Result<String> {
    let mut script = String::new(alloc);
    write!(script, "format/fuse {passed}")?;
    for save in 0..SAVES {
        let (first, second) = (2 * save + 1, 2 * save + 2);
        write!(script, "/write 0 {first:02x}/write 127 {second:02x}/save")?;
    }
    write!(script, "/restore {pick}/read 0/read 127")?;
    Ok(script)
}

// What two writes and a save answer where so many saves are made.
fn tell_round(text: &mut String, save: u64, made: u64) -> anyhow::Result<()> {
    let first = save.saturating_mul(2);
    let second = first.saturating_add(1);
    if save > made {
        text.push_str("/refused write 5 TrailFull/refused write 5 TrailFull/fault save")?;
        return Ok(());
    }
    write!(
        text,
        "/accepted {first} mark {first}/accepted {second} mark {first}"
    )?;
    if save == made {
        text.push_str("/fault save")?;
    } else {
        write!(
            text,
            "/saved {} {}",
            save.saturating_add(2),
            second.saturating_add(1)
        )?;
    }
    Ok(())
}

// What the script answers, where a restore finds the image of so many saves.
fn answers_of(alloc: Global, passed: u64, found: u64) -> anyhow::Result<String> {
    let mut text = String::new(alloc);
    write!(text, "formatted/fuse {passed}")?;
    for save in 0..SAVES {
        tell_round(&mut text, save, passed / CALLS)?;
    }
    let count = found.saturating_mul(2);
    let first = count.saturating_sub(1);
    write!(
        text,
        "/restored {} {count} Complete/line 0 = {first:02x}/line 127 = {count:02x}",
        found.saturating_add(1)
    )?;
    Ok(text)
}

// Behind the last sync but one of a save the new image may be the one that a stop leaves.
fn is_found<R: Abort + AllocGlobal>(rt: &R, passed: u64, pick: &str) -> anyhow::Result<()> {
    let made = passed / CALLS;
    let found = if pick == "new" && passed % CALLS == CALLS - 1 {
        made + 1
    } else {
        made
    };
    let alloc = rt.alloc();
    let profile = TINY.replace(alloc, "trail = 1024", "trail = 2")?;
    let script = script_of(alloc, passed, pick)?;
    let wanted = answers_of(alloc, passed, found)?;
    let answers = answers_on(alloc, profile.as_str(), script.as_str());
    assert_eq!(*rt; answers.as_deref(), Some(wanted.as_str()), "{script}");
    Ok(())
}

#[test]
fn ten_saves_in_a_trail_of_two(rt: HostRuntime) -> anyhow::Result<()> {
    for passed in 0..=SAVES * CALLS {
        is_found(&rt, passed, "old")?;
        is_found(&rt, passed, "new")?;
    }
    Ok(())
}
