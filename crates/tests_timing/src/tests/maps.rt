// Worked places, and each line there and back.
ghost use Rattle.std.specs.Prelude.{◌≡◌, ◌<◌};
ghost use Rattle.ddr4_timing.specs.Limits.{lines_of};
ghost use Rattle.ddr4_timing.specs.Places.{LiesIn};
ghost use Rattle.interleave_map.specs.Interleaving.{place_by_lines, line_by_lines, place_by_xor, line_by_xor};

use crate::tests::check::same;
use ddr4_timing::place::Place;
use ddr4_timing::profiles::{SMALL, TINY, WIDEST};
use ddr4_timing::timing::{Checked, Geometry};
use interleave_map::cells::{cell_of, cells, line_count};
use interleave_map::line_map::LineMap;
use interleave_map::map::Map;
use interleave_map::{Interleaving, ReadyMap, lines, xor};
use std::process::Abort;

const FIRST: Place = Place {
    channel: 0,
    rank: 0,
    group: 0,
    bank: 0,
    row: 0,
    column: 0,
};

// Tries each line of a map, and each place.
fn try_all<M: LineMap, R: Abort>(rt: &R, map: &M, checked: &Checked)
    requires lawful { M.is_lawful map.now }
    requires geometry { M.geometry_of map.now ≡ checked.now.geometry }
{
    map.interleaves();
    for line in 0..line_count(checked) {
        let place = map.place(line);
        same(rt, place.lies_in(&checked.geometry), true);
        same(rt, map.line(place), line);
        let other = lines::split(checked, line);
        assert!(*rt; other.lies_in(&checked.geometry));
        same(rt, map.place(map.line(other)), other);
    }
}

fn try_lines<R: Abort>(rt: &R, checked: Checked) {
    let split = move |line: u64| -> Place
        requires { line < lines_of checked.geometry }
        ensures { result ≡ place_by_lines checked.geometry line }
    { lines::split(&checked, line) };
    let join = move |place: Place| -> u64
        requires { LiesIn checked.geometry place }
        ensures { result ≡ line_by_lines checked.geometry place }
    { lines::join(&checked, place) };
    let names = ReadyMap {
        interleaving: Interleaving::Lines,
        checked,
    };
    let map = Map::new(split, join, names, &checked);
    try_all(rt, &map, &checked);
}

fn try_xor<R: Abort>(rt: &R, checked: Checked) {
    let split = move |line: u64| -> Place
        requires { line < lines_of checked.geometry }
        ensures { result ≡ place_by_xor checked.geometry line }
    { xor::split(&checked, line) };
    let join = move |place: Place| -> u64
        requires { LiesIn checked.geometry place }
        ensures { result ≡ line_by_xor checked.geometry place }
    { xor::join(&checked, place) };
    let names = ReadyMap {
        interleaving: Interleaving::Xor,
        checked,
    };
    let map = Map::new(split, join, names, &checked);
    try_all(rt, &map, &checked);
}

#[test]
fn all_come_back_on_tiny(rt: HostRuntime) {
    let checked = TINY.check(&SMALL).expect(&rt, "a profile");
    try_lines(&rt, checked);
    try_xor(&rt, checked);
}

#[test]
fn all_come_back_on_the_largest(rt: HostRuntime) {
    let checked = TINY.check(&WIDEST).expect(&rt, "a profile");
    try_lines(&rt, checked);
    try_xor(&rt, checked);
}

#[test]
fn all_come_back_on_one_channel(rt: HostRuntime) {
    let one = Geometry {
        channels: 1,
        ..SMALL
    };
    let checked = TINY.check(&one).expect(&rt, "a profile");
    try_lines(&rt, checked);
    try_xor(&rt, checked);
}

#[test]
fn places_by_lines(rt: HostRuntime) {
    let checked = TINY.check(&SMALL).expect(&rt, "a profile");
    assert!(rt; line_count(&checked) == 128);
    same(&rt, lines::split(&checked, 0), FIRST);
    same(&rt, lines::split(&checked, 2), Place { column: 1, ..FIRST });
    same(&rt, lines::split(&checked, 8), Place { group: 1, ..FIRST });
    same(&rt, lines::split(&checked, 16), Place { bank: 1, ..FIRST });
    same(&rt, lines::split(&checked, 64), Place { row: 1, ..FIRST });
    let place = Place {
        channel: 1,
        column: 2,
        row: 1,
        ..FIRST
    };
    same(&rt, lines::split(&checked, 69), place);
    assert!(rt; place.lies_in(&checked.geometry));
    same(&rt, lines::join(&checked, place), 69);
    same(&rt, cell_of(&checked, &place), 34);
    same(&rt, cells(&checked), 64);
}

#[test]
fn places_by_xor(rt: HostRuntime) {
    let checked = TINY.check(&SMALL).expect(&rt, "a profile");
    assert!(rt; line_count(&checked) == 128);
    let first_row = lines::split(&checked, 63);
    same(&rt, xor::split(&checked, 63), first_row);
    let place = Place {
        channel: 0,
        column: 2,
        row: 1,
        ..FIRST
    };
    same(&rt, xor::split(&checked, 69), place);
    assert!(rt; place.lies_in(&checked.geometry));
    same(&rt, xor::join(&checked, place), 69);
}

#[test]
fn places_on_the_largest(rt: HostRuntime) {
    let checked = TINY.check(&WIDEST).expect(&rt, "a profile");
    assert!(rt; line_count(&checked) == 65536);
    let last = Place {
        channel: 7,
        rank: 3,
        group: 3,
        bank: 3,
        row: 1,
        column: 63,
    };
    same(&rt, lines::split(&checked, 65535), last);
    same(
        &rt,
        xor::split(&checked, 65535),
        Place { channel: 6, ..last },
    );
    same(
        &rt,
        lines::split(&checked, 512),
        Place { group: 1, ..FIRST },
    );
    assert!(rt; last.lies_in(&checked.geometry));
    same(&rt, cell_of(&checked, &last), 8191);
}

fn place_by_map(checked: Checked, line: u64) -> Place
    requires { line < lines_of checked.geometry }
    ensures { result ≡ place_by_xor checked.geometry line }
{
    let split = move |line: u64| -> Place
        requires { line < lines_of checked.geometry }
        ensures { result ≡ place_by_xor checked.geometry line }
    { xor::split(&checked, line) };
    let join = move |place: Place| -> u64
        requires { LiesIn checked.geometry place }
        ensures { result ≡ line_by_xor checked.geometry place }
    { xor::join(&checked, place) };
    let names = ReadyMap {
        interleaving: Interleaving::Xor,
        checked,
    };
    Map::new(split, join, names, &checked).place(line)
}

#[test]
fn line_69_lies_on_channel_0_by_xor(rt: HostRuntime) {
    let checked = TINY.check(&SMALL).expect(&rt, "a profile");
    assert!(rt; line_count(&checked) == 128);
    same(&rt, place_by_map(checked, 69).channel, 0);
}
