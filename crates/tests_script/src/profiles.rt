// The profile that a word names, and what it means.
use crate::check::same;
use crate::program::{ends, make, named, place, remove, shown};
use command_faults::{FileHost, profile_of};
use interleave_map::Interleaving;
use nv_profile::TINY;
use std::process::{self, Abort, ExitCode};
use std::rt::Files;

const TINY_MEANING: &str = "lines 128 on 2 channels, map lines
device 24576 bytes
entry 486 clocks
close step 437 clocks
pending 0: steps 10, reserve 3328, floor 3339, least reading 3340
pending 1: steps 11, reserve 3841, floor 3853, least reading 3854
pending 8: steps 18, reserve 7432, floor 7451, least reading 7452
pending 16: steps 26, reserve 11536, floor 11563, least reading 11564
";

const TINY2_MEANING: &str = "lines 128 on 2 channels, map lines
device 24576 bytes
entry 486 clocks
close step 437 clocks
pending 0: steps 10, reserve 3528, floor 3539, least reading 3540
pending 1: steps 11, reserve 4041, floor 4053, least reading 4054
pending 8: steps 18, reserve 7632, floor 7651, least reading 7652
pending 16: steps 26, reserve 11736, floor 11763, least reading 11764
";

#[test]
fn what_a_profile_means(rt: HostRuntime) {
    for (word, text) in [("tiny", TINY_MEANING), ("tiny2", TINY2_MEANING)] {
        ends(&rt, "", &["profile", word], ExitCode::SUCCESS, "", text);
    }
}

// Fails where the profile of a word hasn't this map, or isn't refused with this text.
fn has_map<R: Abort + FileHost + AllocGlobal>(rt: &R, word: &str, wanted: &str) {
    let found = match profile_of(rt, word) {
        Ok(profile) => profile.map.to_string(rt.alloc()).expect(rt, "memory"),
        Err(failure) => shown(rt, &failure.fault),
    };
    same(rt, (word, found.as_str()), (word, wanted));
}

// The same of a file with these bytes.
fn file_has_map<R>(rt: &R, place: &str, name: &str, bytes: &[u8], wanted: &str)
where
    R: Abort + Files + FileHost + AllocGlobal,
{
    make(rt, place, name, bytes);
    has_map(rt, named(rt, place, name).as_str(), wanted);
    remove(rt, place, name);
}

// The text of the small profile with spaces behind it, up to so many bytes.
fn longer<R: Abort + AllocGlobal>(rt: &R, len: usize) -> Vec<u8> {
    let mut text = TINY.as_bytes().to_vec(rt.alloc()).expect(rt, "memory");
    text.push(b'#').expect(rt, "memory");
    text.resize(len, b' ').expect(rt, "memory");
    text
}

#[test]
fn profiles(rt: HostRuntime) {
    let place = place(&rt, process::id(rt.process()));
    let place = place.as_str();
    let (head, _) = TINY.split_once("map").expect(&rt, "a map");
    let other = format!(in rt.alloc(); "{head}map = \"{}\"\n", Interleaving::Xor);
    let other = other.expect(&rt, "memory");
    file_has_map(&rt, place, "%tiny", TINY.as_bytes(), "lines");
    file_has_map(&rt, place, "%xor", other.as_bytes(), "xor");
    file_has_map(
        &rt,
        place,
        "%longest",
        longer(&rt, 65_536).as_slice(),
        "lines",
    );
    file_has_map(
        &rt,
        place,
        "%long",
        longer(&rt, 65_537).as_slice(),
        "profile",
    );
    file_has_map(&rt, place, "%short", head.as_bytes(), "profile");
    file_has_map(&rt, place, "%empty", b"".as_slice(), "profile");
    has_map(&rt, "tiny", "lines");
    has_map(&rt, "/no/such", "file /no/such");
}
