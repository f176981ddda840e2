// Profiles of which one key is missing, written twice, or has another value; texts that are none; and bytes that aren't UTF-8.
use crate::table::{Key, Numbers, table, text_with};
use crate::tally::TrialCounts;
use nv_profile::{ProfileFault, TINY2, read_profile};

// Numbers at the limits of keys, and one past them.
const NUMBERS: [u64; 28] = [
    0,
    1,
    2,
    3,
    4,
    5,
    8,
    9,
    16,
    17,
    55,
    56,
    64,
    65,
    1024,
    1849,
    1850,
    2048,
    4096,
    4097,
    65_536,
    65_537,
    100_000,
    100_001,
    1_000_000,
    1_000_001,
    9_223_372_036_854_775_807,
    9_223_372_036_854_775_808,
];

// Values that are no whole numbers from 0 on.
const NO_NUMBERS: [&str; 16] = [
    "-1",
    "-0.0",
    "2.0",
    "1e3",
    "nan",
    "\"2\"",
    "'2'",
    "true",
    "[2]",
    "{}",
    "1979-05-27",
    "2 3",
    "",
    "0b2",
    "18446744073709551616",
    "lines",
];

// Texts that are no profiles, be they TOML or not.
const NO_PROFILES: [&str; 16] = [
    "",
    "\n",
    "timing",
    "1",
    "[]",
    "{}",
    "\"timing\"",
    "= 1",
    "[timing",
    "[timing]",
    "[[timing]]\n[[geometry]]\n[[costs]]\n[[module]]\n",
    "timing = 1\ngeometry = 1\ncosts = 1\nmodule = 1\n",
    "timing = []\ngeometry = []\ncosts = []\nmodule = []\n",
    "timing = {}\ngeometry = {}\ncosts = {}\nmodule = {}\n",
    "[timing]\n[geometry]\n[costs]\n[module]\n",
    "[timing.timing]\n[geometry]\n[costs]\n[module]\n",
];

// Bytes none of which can stand alone in UTF-8.
const BYTES: [u8; 5] = [0x80, 0xbf, 0xc3, 0xf0, 0xff];

// Tries a text, of which it is known whether it is a profile.
fn try_text(
    rt: &HostRuntime,
    what: &str,
    text: &[u8],
    expected: bool,
    tally: &mut TrialCounts,
) -> anyhow::Result<()> {
    let read = read_profile(rt.alloc(), text);
    let right = match &read {
        Ok(_) => expected,
        Err(fault) => !expected && *fault == ProfileFault::Refused,
    };
    tally.count(read.is_ok(), right);
    if !right {
        println!(rt; "wrong: {what}")?;
    }
    Ok(())
}

// Tries the small profile with another text in place of the line of a key.
fn try_line(
    rt: &HostRuntime,
    keys: &[Key],
    place: usize,
    line: &str,
    expected: bool,
    tally: &mut TrialCounts,
) -> anyhow::Result<()> {
    let text = text_with(rt.alloc(), keys, place, line)?;
    try_text(rt, line, text.as_bytes(), expected, tally)
}

// A key with each number, and with values that are none.
fn try_values(
    rt: &HostRuntime,
    keys: &[Key],
    place: usize,
    key: &Key,
    tally: &mut TrialCounts,
) -> anyhow::Result<()> {
    for value in NUMBERS {
        let line = format!(in rt.alloc(); "{} = {value}\n", key.name)?;
        let expected = Numbers { keys, place, value }.make_a_profile();
        try_line(rt, keys, place, &line, expected, tally)?;
    }
    for value in NO_NUMBERS {
        let line = format!(in rt.alloc(); "{} = {value}\n", key.name)?;
        try_line(rt, keys, place, &line, false, tally)?;
    }
    Ok(())
}

// A key that is missing, written twice, or stands beside one that no profile has.
fn try_key(
    rt: &HostRuntime,
    keys: &[Key],
    place: usize,
    key: &Key,
    tally: &mut TrialCounts,
) -> anyhow::Result<()> {
    let (name, value) = (key.name, key.value);
    try_line(rt, keys, place, "", key.is_optional, tally)?;
    let twice = format!(in rt.alloc(); "{name} = {value}\n{name} = {value}\n")?;
    try_line(rt, keys, place, &twice, false, tally)?;
    let further = format!(in rt.alloc(); "{name} = {value}\n{name}s = {value}\n")?;
    try_line(rt, keys, place, &further, false, tally)?;
    let other = format!(in rt.alloc(); "{name}s = {value}\n")?;
    try_line(rt, keys, place, &other, false, tally)
}

// The profile `tiny2` with each of its bytes turned to one that can't stand alone in UTF-8.
fn try_bytes(rt: &HostRuntime) -> anyhow::Result<()> {
    let mut text = TINY2.as_bytes().to_vec(rt.alloc())?;
    let mut tally = TrialCounts::new();
    for at in 0..text.len() {
        for byte in BYTES {
            let before = std::mem::replace(&mut text[at], byte);
            try_text(rt, "a byte that isn't UTF-8", &text, false, &mut tally)?;
            text[at] = before;
        }
    }
    tally.show(rt, "profiles with a byte that isn't UTF-8", "read")
}

/// All of them.
pub(crate) fn try_profiles(rt: &HostRuntime) -> anyhow::Result<()> {
    let keys = table(rt.alloc())?;
    let mut tally = TrialCounts::new();
    try_line(rt, &keys, keys.len(), "", true, &mut tally)?;
    for (place, key) in keys.iter().enumerate() {
        try_values(rt, &keys, place, key, &mut tally)?;
        try_key(rt, &keys, place, key, &mut tally)?;
    }
    for text in NO_PROFILES {
        try_text(rt, text, text.as_bytes(), false, &mut tally)?;
    }
    tally.show(rt, "profiles", "read")?;
    try_bytes(rt)
}
