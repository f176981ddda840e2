// Profiles at their limits and one past them, and texts that are none.
use crate::check::same;
use ddr4_timing::profiles;
use energy_budget::{CostNumbers, TINY_COSTS};
use interleave_map::Interleaving;
use nv_profile::{
    ModuleSizes, Profile, ProfileFault, TINY, read_profile, read_rules, ready_profile,
};
use std::alloc::Global;
use std::process::Abort;

// The text of the word `tiny` with another value under a key.
fn with<R: Abort + AllocGlobal>(rt: &R, key: &str, value: &str) -> String {
    let start = format!(in rt.alloc(); "\n{key} = ").expect(rt, "memory");
    let (before, rest) = TINY.split_once(start.as_str()).expect(rt, "the key");
    let (_, after) = rest.split_once('\n').expect(rt, "the end of the line");
    format!(in rt.alloc(); "{before}{start}{value}\n{after}").expect(rt, "memory")
}

// The text of the word `tiny` with another text in place of a part of it.
fn without<R: Abort + AllocGlobal>(rt: &R, part: &str, other: &str) -> String {
    let (before, after) = TINY.split_once(part).expect(rt, "the part");
    format!(in rt.alloc(); "{before}{other}{after}").expect(rt, "memory")
}

fn is_profile(alloc: Global, text: &[u8]) -> bool {
    read_profile(alloc, text).is_ok()
}

fn is_refused(alloc: Global, text: &[u8]) -> bool {
    match read_profile(alloc, text) {
        Err(fault) => fault == ProfileFault::Refused,
        Ok(_) => false,
    }
}

// Fails where a value under a key isn't accepted.
fn accepts<R: Abort + AllocGlobal>(rt: &R, key: &str, value: &str) {
    let text = with(rt, key, value);
    assert!(*rt; is_profile(rt.alloc(), text.as_bytes()), "{key} = {value}");
}

// Fails where a value under a key isn't refused.
fn refuses<R: Abort + AllocGlobal>(rt: &R, key: &str, value: &str) {
    let text = with(rt, key, value);
    assert!(*rt; is_refused(rt.alloc(), text.as_bytes()), "{key} = {value}");
}

// Fails where another text in place of a part isn't accepted.
fn accepts_for<R: Abort + AllocGlobal>(rt: &R, part: &str, other: &str) {
    let text = without(rt, part, other);
    assert!(*rt;
        is_profile(rt.alloc(), text.as_bytes()),
        "{other} for {part}"
    );
}

// Fails where another text in place of a part isn't refused.
fn refuses_for<R: Abort + AllocGlobal>(rt: &R, part: &str, other: &str) {
    let text = without(rt, part, other);
    assert!(*rt;
        is_refused(rt.alloc(), text.as_bytes()),
        "{other} for {part}"
    );
}

fn tiny<R: Abort + AllocGlobal>(rt: &R) -> Profile {
    read_profile(rt.alloc(), TINY.as_bytes()).expect(rt, "a profile")
}

#[test]
fn timing_of_tiny(rt: HostRuntime) {
    let profile = tiny(&rt);
    same(&rt, profile.checked.timing, profiles::TINY);
    same(&rt, profile.checked.geometry, profiles::SMALL);
}

#[test]
fn costs_and_sizes_of_tiny(rt: HostRuntime) {
    let sizes = ModuleSizes {
        depth: 8,
        reads: 8,
        trail: 1024,
        notices: 64,
        retries: 0,
    };
    let profile = tiny(&rt);
    same(&rt, profile.costs, TINY_COSTS);
    same(&rt, profile.sizes, sizes);
    same(&rt, profile.map, Interleaving::Lines);
}

#[test]
fn limits_of_costs(rt: HostRuntime) {
    for key in [
        "e_act", "e_col", "e_pre", "e_ref", "e_sre", "e_clk", "e_mark", "e_sync", "e_page", "leak",
    ] {
        for value in ["0", "1000000"] {
            accepts(&rt, key, value);
        }
        for value in ["-1", "1000001"] {
            refuses(&rt, key, value);
        }
    }
}

// The text of the word `tiny` with a cost of digests.
fn with_digests<R: Abort + AllocGlobal>(rt: &R, value: &str) -> String {
    let line = format!(in rt.alloc(); "leak = 1\ne_digest = {value}\n").expect(rt, "memory");
    without(rt, "leak = 1\n", line.as_str())
}

#[test]
fn costs_of_digests(rt: HostRuntime) {
    same(&rt, tiny(&rt).costs.e_digest, 0);
    for (value, cost) in [("0", 0), ("100", 100), ("1000000", 1_000_000)] {
        let text = with_digests(&rt, value);
        let profile = read_profile(rt.alloc(), text.as_bytes()).expect(&rt, "a profile");
        let wanted = CostNumbers {
            e_digest: cost,
            ..TINY_COSTS
        };
        same(&rt, profile.costs, wanted);
    }
    for value in [
        "-1",
        "1000001",
        "1.0",
        "\"1\"",
        "true",
        "{}",
        "0\ne_digest = 0",
    ] {
        let text = with_digests(&rt, value);
        assert!(rt; is_refused(rt.alloc(), text.as_bytes()), "{value}");
    }
}

// The text of the word `tiny` with a number of device calls that may be made again.
fn with_retries<R: Abort + AllocGlobal>(rt: &R, value: &str) -> String {
    let line = format!(in rt.alloc(); "notices = 64\nretries = {value}\n").expect(rt, "memory");
    without(rt, "notices = 64\n", line.as_str())
}

#[test]
fn calls_that_may_be_made_again(rt: HostRuntime) {
    same(&rt, tiny(&rt).sizes.retries, 0);
    for (value, retries) in [("0", 0), ("2", 2), ("16", 16)] {
        let text = with_retries(&rt, value);
        let profile = read_profile(rt.alloc(), text.as_bytes()).expect(&rt, "a profile");
        same(&rt, profile.sizes.retries, retries);
    }
    for value in ["17", "-1", "1.0", "\"1\"", "true", "{}", "0\nretries = 0"] {
        let text = with_retries(&rt, value);
        assert!(rt; is_refused(rt.alloc(), text.as_bytes()), "{value}");
    }
}

#[test]
fn profiles_that_a_word_names(rt: HostRuntime) {
    same(&rt, ready_profile("tiny"), Some(TINY));
    let digested = with_digests(&rt, "100");
    same(&rt, ready_profile("tiny2"), Some(digested.as_str()));
    for word in ["", "tiny1", "tiny3", "tiny22", "Tiny", "tiny ", "small"] {
        same(&rt, ready_profile(word), None);
    }
}

#[test]
fn limits_of_sizes(rt: HostRuntime) {
    for (key, most, past) in [
        ("depth", "64", "65"),
        ("reads", "64", "65"),
        ("trail", "65536", "65537"),
        ("notices", "4096", "4097"),
    ] {
        for value in ["1", most] {
            accepts(&rt, key, value);
        }
        for value in ["0", "-1", past] {
            refuses(&rt, key, value);
        }
    }
}

const TIMING_KEYS: [&str; 17] = [
    "tRCD", "tRP", "tRAS", "CL", "CWL", "tCCD_S", "tCCD_L", "tRRD_S", "tRRD_L", "tFAW", "tWR",
    "tWTR_S", "tWTR_L", "tRTP", "tRTW", "tCS", "tRFC",
];

// Fails where zero, a negative value or one past the limit isn't refused under a key.
fn refuses_past_limits<R: Abort + AllocGlobal>(rt: &R, key: &str) {
    refuses(rt, key, "0");
    refuses(rt, key, "-1");
    refuses(rt, key, "100001");
    refuses(rt, key, "9223372036854775807");
}

#[test]
fn limits_of_timing(rt: HostRuntime) {
    for key in TIMING_KEYS.iter() {
        refuses_past_limits(&rt, key);
    }
    accepts(&rt, "CL", "100000");
    accepts(&rt, "CL", "1");
    accepts(&rt, "tREFI", "1850");
    accepts(&rt, "tREFI", "1000000");
    accepts(&rt, "tFAW", "55");
    refuses(&rt, "tREFI", "1849");
    refuses(&rt, "tREFI", "1000001");
    refuses(&rt, "tFAW", "56");
}

#[test]
fn limits_of_the_geometry(rt: HostRuntime) {
    accepts(&rt, "channels", "1");
    accepts(&rt, "channels", "8");
    accepts(&rt, "ranks", "4");
    accepts(&rt, "groups", "4");
    accepts(&rt, "rows", "1");
    accepts(&rt, "rows", "1024");
    accepts(&rt, "columns", "2048");
    refuses(&rt, "channels", "0");
    refuses(&rt, "channels", "3");
    refuses(&rt, "channels", "16");
    refuses(&rt, "ranks", "3");
    refuses(&rt, "ranks", "8");
    refuses(&rt, "groups", "1");
    refuses(&rt, "groups", "8");
    refuses(&rt, "banks", "2");
    refuses(&rt, "rows", "3");
    refuses(&rt, "rows", "2048");
    refuses(&rt, "columns", "1");
    refuses(&rt, "columns", "4096");
}

const GEOMETRY: &str = "channels = 2\nranks = 1\ngroups = 2\nbanks = 4\nrows = 2\ncolumns = 4\n";

#[test]
fn limits_of_all_lines(rt: HostRuntime) {
    let most = "channels = 8\nranks = 4\ngroups = 4\nbanks = 4\nrows = 16\ncolumns = 8\n";
    accepts_for(&rt, GEOMETRY, most);
    let past = "channels = 8\nranks = 4\ngroups = 4\nbanks = 4\nrows = 16\ncolumns = 16\n";
    refuses_for(&rt, GEOMETRY, past);
    refuses_for(&rt, "rows = 2\ncolumns = 4", "rows = 1\ncolumns = 2");
}

#[test]
fn maps(rt: HostRuntime) {
    let xor = with(&rt, "map", "\"xor\"");
    let profile = read_profile(rt.alloc(), xor.as_bytes()).expect(&rt, "a profile");
    same(&rt, profile.map, Interleaving::Xor);
    let word = format!(in rt.alloc(); "{} {}", Interleaving::Lines, Interleaving::Xor).expect(
        &rt, "memory",
    );
    same(&rt, word.as_str(), "lines xor");
    for value in ["\"row\"", "\"\"", "\"Lines\"", "\"lines \"", "lines", "1"] {
        refuses(&rt, "map", value);
    }
}

#[test]
fn further_and_missing_keys(rt: HostRuntime) {
    for (part, other) in [
        ("tCS = 2\n", ""),
        ("leak = 1\n", ""),
        ("banks = 4\n", ""),
        ("notices = 64\n", ""),
        ("map = \"lines\"\n", ""),
        ("tCS = 2\n", "tCS = 2\ntCS = 2\n"),
        ("[module]\n", "[module]\n[module]\n"),
        ("tCS = 2\n", "tCS = 2\ntCKE = 2\n"),
        ("tCS = 2\n", "tcs = 2\n"),
        ("leak = 1\n", "leak = 1\nretries = 0\n"),
        ("leak = 1\n", "e_digest = 0\n"),
        ("leak = 1\n", "leak = 1\ne_digests = 0\n"),
        ("depth = 8\n", "depth = 8\ne_digest = 0\n"),
        ("banks = 4\n", "banks = 4\nlines = 128\n"),
        ("notices = 64\n", "notices = 64\nname = \"tiny\"\n"),
        ("[timing]\n", "name = \"tiny\"\n[timing]\n"),
        ("[module]\n", "[further]\n[module]\n"),
        ("[module]\n", "[modules]\n"),
    ] {
        refuses_for(&rt, part, other);
    }
}

#[test]
fn values_that_are_no_whole_numbers(rt: HostRuntime) {
    for value in [
        "2.0",
        "\"2\"",
        "true",
        "[2]",
        "{}",
        "2 3",
        "",
        "9223372036854775808",
    ] {
        for key in ["tCS", "channels", "leak", "depth"] {
            refuses(&rt, key, value);
        }
    }
}

#[test]
fn texts_that_are_no_profiles(rt: HostRuntime) {
    for text in [
        "",
        "timing",
        "[timing]",
        "timing = 1\ngeometry = 1\ncosts = 1\nmodule = 1\n",
    ] {
        assert!(rt; is_refused(rt.alloc(), text.as_bytes()), "{text}");
    }
    let mut bytes = TINY.as_bytes().to_vec(rt.alloc()).expect(&rt, "memory");
    bytes.extend_from_slice(b"# \xff\n").expect(&rt, "memory");
    assert!(rt; is_refused(rt.alloc(), &bytes));
}

#[test]
fn other_ways_to_write_it(rt: HostRuntime) {
    for (part, other) in [
        ("tCS = 2\n", "tCS = 0x2 # clocks\n"),
        ("tRFC = 420\n", "\"tRFC\" = 4_20\r\n"),
        ("map = \"lines\"", "map = 'lines'"),
        ("leak = 1\n", "leak = +1\n"),
    ] {
        accepts_for(&rt, part, other);
    }
}

#[test]
fn the_longest_profile(rt: HostRuntime) {
    let mut bytes = TINY.as_bytes().to_vec(rt.alloc()).expect(&rt, "memory");
    bytes.push(b'#').expect(&rt, "memory");
    bytes.resize(65_536, b'x').expect(&rt, "memory");
    assert!(rt; is_profile(rt.alloc(), &bytes));
    bytes.push(b'x').expect(&rt, "memory");
    assert!(rt; is_refused(rt.alloc(), &bytes));
}

// The tables of the timing and of the geometry of `tiny`, with another text in place of a part of them.
fn rules_without<R: Abort + AllocGlobal>(rt: &R, part: &str, other: &str) -> String {
    let (tables, _) = TINY.split_once("[costs]").expect(rt, "the costs");
    let (before, after) = tables.split_once(part).expect(rt, "the part");
    format!(in rt.alloc(); "{before}{other}{after}").expect(rt, "memory")
}

// Whether they are numbers by which commands are checked.
fn are_rules<R: Abort + AllocGlobal>(rt: &R, part: &str, other: &str, wanted: bool) {
    let text = rules_without(rt, part, other);
    let read = read_rules(rt.alloc(), text.as_bytes());
    assert_eq!(*rt; read.is_ok(), wanted, "{other} for {part}");
}

#[test]
fn numbers_of_commands_alone(rt: HostRuntime) {
    are_rules(&rt, "rows = 2", "rows = 262144", true);
    are_rules(&rt, "rows = 2", "rows = 262145", false);
    are_rules(&rt, "columns = 4", "columns = 1024", true);
    are_rules(&rt, "columns = 4", "columns = 1025", false);
    are_rules(&rt, "ranks = 1", "ranks = 8", true);
    are_rules(&rt, "ranks = 1", "ranks = 9", false);
    are_rules(&rt, "channels = 2", "channels = 3", true);
    are_rules(&rt, "channels = 2", "", false);
    are_rules(&rt, "[geometry]", "[costs]\n[geometry]", false);
    are_rules(&rt, "tRFC = 420", "tRFC = 0", false);
    let whole = read_rules(rt.alloc(), TINY.as_bytes());
    assert!(rt; whole.is_err(), "a profile has further tables");
}
