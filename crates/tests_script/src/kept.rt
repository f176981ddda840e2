// Runs on a store, which is left for the next one.
use crate::check::same;
use crate::program::{ends, make, named, place, remove};
use interleave_map::{Interleaving, ReadyMap};
use nv_profile::{TINY, read_profile};
use run_command::{AnswerPrinter, run_on_store};
use script_runner::CommandBook;
use std::fs::{self, File, Permissions};
use std::os::unix::fs::{FileExt, PermissionsExt};
use std::process::{self, Abort, ExitCode};
use store_file::{HostStore, ModelStore};

const FIRST: &[u8] = b"format\nwrite 5 a5\nsave\n";

const THEN: &[u8] = b"restore\nread 5\nwrite 6 b6\nsave\n";

const FIRST_TOLD: &str = "formatted\naccepted 0 mark 0\nsaved 2 1\n";

const THEN_TOLD: &str = "restored 2 1 Complete\nline 5 = a5\naccepted 1 mark 1\nsaved 3 2\n";

const SHOWN: &str = "restored 3 2 Complete\nline 5 = a5\nline 6 = b6\n";

// Words one after another, with the status, the line and the text. A store that a run makes has a spare place, as that of a life has.
const RUNS: [(&[&str], u8, &str, &str); 10] = [
    (
        &["run", "tiny", "%first", "--store", "%kept"],
        0,
        "",
        FIRST_TOLD,
    ),
    (
        &["run", "tiny", "%then", "--store", "%kept"],
        0,
        "",
        THEN_TOLD,
    ),
    (
        &["run", "tiny", "%bad", "--store", "%kept"],
        1,
        "script line 2",
        "",
    ),
    (&["show", "%kept"], 0, "", SHOWN),
    (
        &["run", "tiny", "%first", "--out", "%bare"],
        0,
        "",
        FIRST_TOLD,
    ),
    (
        &["run", "tiny", "%then", "--store", "%bare"],
        0,
        "",
        THEN_TOLD,
    ),
    (&["show", "%bare"], 0, "", SHOWN),
    (
        &["run", "tiny", "%first", "--store", "%first"],
        2,
        "--store names the script",
        "",
    ),
    (
        &[
            "run", "tiny", "%first", "--store", "%kept", "--out", "%bare",
        ],
        2,
        "--store stands beside --out",
        "",
    ),
    (
        &["run", "tiny", "%first", "--store", "%then"],
        1,
        "the file has 31 bytes and not 26112",
        "",
    ),
];

#[test]
fn a_store_that_is_run_on(rt: HostRuntime) {
    let place = place(&rt, process::id(rt.process()));
    let place = place.as_str();
    make(&rt, place, "%first", FIRST);
    make(&rt, place, "%then", THEN);
    make(&rt, place, "%bad", b"restore\nwirte 0 11\n");
    for (words, code, line, text) in RUNS {
        ends(&rt, place, words, ExitCode::from(code), line, text);
    }
    let kept = named(&rt, place, "%kept");
    let held = HostStore::open(&rt, &kept).expect(&rt, "a store");
    let words = ["run", "tiny", "%first", "--store", "%kept"];
    ends(
        &rt,
        place,
        &words,
        ExitCode::FAILURE,
        "the file is in use",
        "",
    );
    drop(held);
    let beside = named(&rt, place, "%kept.new");
    same(&rt, fs::exists(&rt, beside.as_str()).ok(), Some(false));
    for name in ["%first", "%then", "%bad", "%kept", "%bare"] {
        remove(&rt, place, name);
    }
}

#[test]
fn a_file_of_out_is_replaced(rt: HostRuntime) {
    let place = place(&rt, process::id(rt.process()));
    let place = place.as_str();
    make(&rt, place, "%first", FIRST);
    make(&rt, place, "%out", b"old bytes");
    let out = named(&rt, place, "%out");
    let mode = Permissions::from_mode(0o640);
    fs::set_permissions(&rt, out.as_str(), mode).expect(&rt, "a mode");
    let held = File::open(&rt, out.as_str()).expect(&rt, "a file");
    let words = ["run", "tiny", "%first", "--out", "%out"];
    ends(&rt, place, &words, ExitCode::SUCCESS, "", FIRST_TOLD);
    // who had it open has its old bytes
    let mut old = [0; 9];
    held.read_exact_at(&mut old, 0).expect(&rt, "its bytes");
    same(&rt, &old, b"old bytes");
    let found = fs::metadata(&rt, out.as_str()).expect(&rt, "a file");
    let mode = found.permissions().mode() & 0o777;
    same(&rt, (found.len(), mode), (24_576, 0o640));
    let beside = named(&rt, place, "%out.new");
    same(&rt, fs::exists(&rt, beside.as_str()).ok(), Some(false));
    for name in ["%first", "%out"] {
        remove(&rt, place, name);
    }
}

// Fails where a run of this script on a store doesn't tell this text.
fn tells<R: Abort + std::rt::Files + AllocGlobal>(
    rt: &R,
    store: &mut ModelStore,
    script: &[u8],
    text: &str,
) {
    let profile = read_profile(rt.alloc(), TINY.as_bytes()).expect(rt, "a profile");
    let lines = ReadyMap {
        interleaving: Interleaving::Lines,
        checked: profile.checked,
    };
    let xor = ReadyMap {
        interleaving: Interleaving::Xor,
        checked: profile.checked,
    };
    let mut told = Vec::new(rt.alloc());
    let mut book = CommandBook::closed(rt.alloc());
    let mut printer = AnswerPrinter::new(rt.alloc(), false, &mut told);
    let ran = run_on_store(
        rt,
        &profile,
        script,
        &lines,
        &xor,
        store,
        &mut printer,
        &mut book,
    );
    drop(printer);
    same(rt, (ran.is_ok(), told.as_slice()), (true, text.as_bytes()));
}

#[test]
fn a_store_in_memory(rt: HostRuntime) {
    for size in [24_576, 26_112] {
        let zeros = Vec::from_elem(rt.alloc(), 0, size).expect(&rt, "memory");
        let mut store = ModelStore::new(zeros);
        tells(&rt, &mut store, FIRST, FIRST_TOLD);
        tells(&rt, &mut store, THEN, THEN_TOLD);
        same(&rt, store.into_bytes().len(), size);
    }
}
