// What is told of profiles, and why a text is none.
use nv_profile::{TINY, read_profile, read_rules};
use profile_report::{CommandMeaning, Meaning, reasons};
use std::process::Abort;

#[test]
fn the_small_profile(rt: HostRuntime) -> anyhow::Result<()> {
    let profile = read_profile(rt.alloc(), TINY.as_bytes())?;
    let said = Meaning::of(&profile).to_string(rt.alloc())?;
    assert_eq!(rt;
        said.as_str(),
        "lines 128 on 2 channels, map lines
device 24576 bytes
entry 486 clocks
close step 437 clocks
pending 0: steps 10, reserve 3328, floor 3339, least reading 3340
pending 1: steps 11, reserve 3841, floor 3853, least reading 3854
pending 8: steps 18, reserve 7432, floor 7451, least reading 7452
pending 16: steps 26, reserve 11536, floor 11563, least reading 11564"
    );
    Ok(())
}

// A text is refused for these reasons, a line each, or is a profile where there are none.
fn tells<R: Abort + AllocGlobal>(rt: &R, text: &str, wanted: &str) -> anyhow::Result<()> {
    let said = reasons(rt.alloc(), text.as_bytes())?.join(rt.alloc(), "\n")?;
    assert_eq!(*rt; said.as_str(), wanted);
    let is_read = read_profile(rt.alloc(), text.as_bytes()).is_ok();
    assert_eq!(*rt; is_read, wanted.is_empty());
    Ok(())
}

// The same of the small profile with `old` replaced by `new`.
fn refused<R: Abort + AllocGlobal>(
    rt: &R,
    old: &str,
    new: &str,
    wanted: &str,
) -> anyhow::Result<()> {
    let text = TINY.replace(rt.alloc(), old, new)?;
    tells(rt, &text, wanted)
}

// The same of the small profile's timing and geometry, which are numbers for commands alone.
fn for_commands<R: Abort + AllocGlobal>(
    rt: &R,
    old: &str,
    new: &str,
    wanted: &str,
) -> anyhow::Result<()> {
    let (tables, _) = TINY.split_once("[costs]").expect(rt, "the costs");
    let text = tables.replace(rt.alloc(), old, new)?;
    let said = reasons(rt.alloc(), text.as_bytes())?.join(rt.alloc(), "\n")?;
    assert_eq!(*rt; said.as_str(), wanted);
    let is_read = read_rules(rt.alloc(), text.as_bytes()).is_ok();
    assert_eq!(*rt; is_read, wanted.is_empty());
    Ok(())
}

#[test]
fn numbers_for_commands(rt: HostRuntime) -> anyhow::Result<()> {
    for_commands(&rt, "ranks = 1", "ranks = 8", "")?;
    for_commands(&rt, "rows = 2", "rows = 3", "")?;
    for_commands(
        &rt,
        "ranks = 1",
        "ranks = 9",
        "geometry.ranks = 9, and 1 to 8 are allowed",
    )?;
    for_commands(
        &rt,
        "groups = 2",
        "groups = 3",
        "geometry.groups = 3, and 2 or 4 are allowed",
    )?;
    for_commands(
        &rt,
        "rows = 2",
        "rows = 262145",
        "geometry.rows = 262145, and 1 to 262144 are allowed",
    )?;
    for_commands(
        &rt,
        "columns = 4",
        "columns = 1025",
        "geometry.columns = 1025, and 1 to 1024 are allowed",
    )?;
    for_commands(&rt, "channels = 2\n", "", "no key geometry.channels")?;
    let (tables, _) = TINY.split_once("[costs]").expect(&rt, "the costs");
    let rules = read_rules(rt.alloc(), tables.as_bytes())?;
    assert_eq!(rt;
        CommandMeaning::of(&rules).to_string(rt.alloc())?.as_str(),
        "commands on 2 channels, of each ranks 1, banks 8
of each bank rows 2, columns 4
no module: no tables costs and module"
    );
    Ok(())
}

#[test]
fn keys_and_values(rt: HostRuntime) -> anyhow::Result<()> {
    refused(&rt, "tRCD = 16", "tRCD = 17", "")?;
    refused(&rt, "tRCD = 16\n", "", "no key timing.tRCD")?;
    refused(
        &rt,
        "tRCD = 16",
        "tRCD = 16\ntFOO = 1",
        "timing.tFOO isn't known; timing.tFAW?",
    )?;
    refused(
        &rt,
        "tRCD = 16",
        "tRCD = 0",
        "timing.tRCD = 0, and 1 to 100000 are allowed",
    )?;
    refused(
        &rt,
        "tRCD = 16",
        "tRCD = \"x\"",
        "timing.tRCD is no whole number",
    )?;
    refused(
        &rt,
        "e_act = 4",
        "e_act = -1",
        "costs.e_act = -1, and 0 to 1000000 are allowed",
    )?;
    refused(
        &rt,
        "e_act = 4",
        "e_act = 4\ne_digest = 1000001",
        "costs.e_digest = 1000001, and 0 to 1000000 are allowed",
    )?;
    refused(
        &rt,
        "e_act = 4\ne_col = 2",
        "e_act = 4\ne_digest = 1",
        "no key costs.e_col",
    )
}

#[test]
fn all_reasons_at_once(rt: HostRuntime) -> anyhow::Result<()> {
    let text = TINY.replace(rt.alloc(), "tRCD = 16", "tRDC = 16")?;
    let text = text.replace(rt.alloc(), "e_act = 4", "e_act = -1")?;
    let text = text.replace(rt.alloc(), "map = \"lines\"", "mop = \"lines\"")?;
    tells(
        &rt,
        &text,
        "no key timing.tRCD
timing.tRDC isn't known; timing.tRCD?
costs.e_act = -1, and 0 to 1000000 are allowed
module.map is neither lines nor xor
module.mop isn't known; module.map?",
    )
}

#[test]
fn keys_of_the_module(rt: HostRuntime) -> anyhow::Result<()> {
    refused(
        &rt,
        "notices = 64",
        "notices = 64\nretries = 17",
        "module.retries = 17, and 0 to 16 are allowed",
    )?;
    refused(&rt, "notices = 64", "retries = 2", "no key module.notices")?;
    refused(
        &rt,
        "map = \"lines\"",
        "map = \"line\"",
        "module.map is neither lines nor xor",
    )
}

#[test]
fn tables(rt: HostRuntime) -> anyhow::Result<()> {
    refused(
        &rt,
        "[costs]",
        "[cost]",
        "no table costs\ncost isn't known; costs?",
    )?;
    refused(
        &rt,
        "[timing]",
        "further = 1\n[timing]",
        "further isn't known",
    )?;
    refused(
        &rt,
        "tRCD = 16",
        "tRCD 16",
        "no TOML, line 2: key with no value, expected `=`",
    )?;
    tells(
        &rt,
        "",
        "no table timing\nno table geometry\nno table costs\nno table module",
    )?;
    tells(
        &rt,
        "timing = 1",
        "timing is no table\nno table geometry\nno table costs\nno table module",
    )?;
    let long = " ".repeat(rt.alloc(), 65_537)?;
    tells(&rt, &long, "more than 65536 bytes")
}

#[test]
fn failed_checks(rt: HostRuntime) -> anyhow::Result<()> {
    refused(
        &rt,
        "rows = 2",
        "rows = 3",
        "geometry.rows = 3 is no power of two",
    )?;
    refused(
        &rt,
        "columns = 4",
        "columns = 1",
        "32 lines, and 64 to 65536 are allowed",
    )?;
    refused(
        &rt,
        "rows = 2",
        "rows = 2048",
        "131072 lines, and 64 to 65536 are allowed",
    )?;
    refused(
        &rt,
        "tFAW = 26",
        "tFAW = 56",
        "tFAW = 56 is above tRAS + tRP = 55",
    )?;
    refused(
        &rt,
        "tCS = 2",
        "tCS = 29",
        "4 + tCS = 33 is above tRP + tRCD = 32",
    )?;
    refused(
        &rt,
        "tREFI = 9360",
        "tREFI = 1849",
        "2 * (entry 486 + close 437) + 4 * ranks 1 = 1850 is above tREFI = 1849",
    )
}
