// Files that two words of the program name.
use crate::check::same;
use crate::program::{ends, make, named, place, remove};
use std::fs;
use std::os::unix::fs::symlink;
use std::process::{self, Abort, ExitCode};
use std::rt::Files;

// A script, a link to it, and a second name of it.
fn make_names<R: Abort + Files + AllocGlobal>(rt: &R, place: &str) {
    make(rt, place, "%script", b"mark\n");
    let script = named(rt, place, "%script");
    let link = named(rt, place, "%link");
    let twin = named(rt, place, "%twin");
    symlink(rt, script.as_str(), link.as_str()).expect(rt, "a link");
    fs::hard_link(rt, script.as_str(), twin.as_str()).expect(rt, "a second name");
}

fn remove_names<R: Abort + Files + AllocGlobal>(rt: &R, place: &str) {
    for name in ["%script", "%link", "%twin"] {
        remove(rt, place, name);
    }
}

#[test]
fn a_script_by_another_name(rt: HostRuntime) {
    let place = place(&rt, process::id(rt.process()));
    let place = place.as_str();
    make_names(&rt, place);
    for (option, name, line) in [
        ("--out", "%link", "--out names the script"),
        ("--out", "%twin", "--out names the script"),
        ("--store", "%link", "--store names the script"),
        ("--store", "%twin", "--store names the script"),
        ("--commands", "%link", "--commands names the script"),
        ("--commands", "%twin", "--commands names the script"),
    ] {
        let words = ["run", "tiny", "%script", option, name];
        ends(&rt, place, &words, ExitCode::from(2), line, "");
    }
    let words = [
        "run",
        "tiny",
        "%script",
        "--out",
        "%dev",
        "--commands",
        "%dev",
    ];
    ends(
        &rt,
        place,
        &words,
        ExitCode::from(2),
        "--commands names the store",
        "",
    );
    let script = fs::read(&rt, named(&rt, place, "%script").as_str());
    same(
        &rt,
        script.expect(&rt, "a script").as_slice(),
        b"mark\n".as_slice(),
    );
    remove_names(&rt, place);
}

#[test]
fn files_that_are_not_there_yet(rt: HostRuntime) {
    let place = place(&rt, process::id(rt.process()));
    let place = place.as_str();
    make(&rt, place, "%script", b"mark\n");
    let folder = named(&rt, place, "%folder");
    fs::create_dir(&rt, folder.as_str()).expect(&rt, "a folder");
    for name in ["%folder/new", "%folder/./new"] {
        let words = [
            "run",
            "tiny",
            "%script",
            "--out",
            "%folder/new",
            "--commands",
            name,
        ];
        let line = "--commands names the store";
        ends(&rt, place, &words, ExitCode::from(2), line, "");
        let words = [
            "draw",
            "tiny",
            "%script",
            "--svg",
            "%folder/new",
            "--vcd",
            name,
        ];
        let line = "--vcd names the picture of --svg";
        ends(&rt, place, &words, ExitCode::from(2), line, "");
    }
    let words = [
        "draw",
        "tiny",
        "%script",
        "--svg",
        "%folder/new",
        "--vcd",
        "%folder/other",
    ];
    ends(&rt, place, &words, ExitCode::SUCCESS, "", "");
    remove(&rt, place, "%folder/new");
    remove(&rt, place, "%folder/other");
    fs::remove_dir(&rt, folder.as_str()).expect(&rt, "a folder");
    remove(&rt, place, "%script");
}

#[test]
fn pictures_without_room(rt: HostRuntime) {
    let place = place(&rt, process::id(rt.process()));
    let place = place.as_str();
    let writes = "write 0 11\nwork 0 9\n"
        .repeat(rt.alloc(), 90)
        .expect(&rt, "a text");
    let script = format!(in rt.alloc(); "format\n{writes}").expect(&rt, "a text");
    make(&rt, place, "%script", script.as_bytes());
    let told = "file /dev/full\nthere is no room for it";
    for option in ["--svg", "--vcd"] {
        let words = ["draw", "tiny", "%script", option, "/dev/full", "--why"];
        ends(&rt, place, &words, ExitCode::FAILURE, told, "");
    }
    remove(&rt, place, "%script");
}

#[test]
fn files_of_later_lives(rt: HostRuntime) {
    let place = place(&rt, process::id(rt.process()));
    let place = place.as_str();
    make(&rt, place, "%all.2", b"mark\n");
    let words = ["run", "tiny", "%all.2", "--commands", "%all"];
    let line = "--commands names a file that is read, for a later life";
    ends(&rt, place, &words, ExitCode::from(2), line, "");
    let words = [
        "run",
        "tiny",
        "%all.2",
        "--out",
        "%other.3",
        "--commands",
        "%other",
    ];
    let line = "--commands names the store, for a later life";
    ends(&rt, place, &words, ExitCode::from(2), line, "");
    remove(&rt, place, "%all.2");
}

#[test]
fn pictures_over_what_is_read(rt: HostRuntime) {
    let place = place(&rt, process::id(rt.process()));
    let place = place.as_str();
    make_names(&rt, place);
    for (option, name, line) in [
        ("--svg", "%script", "--svg names what is drawn"),
        ("--svg", "%link", "--svg names what is drawn"),
        ("--vcd", "%twin", "--vcd names what is drawn"),
        ("--svg", "tiny", "--svg names the profile"),
    ] {
        let words = ["draw", "tiny", "%script", option, name];
        ends(&rt, place, &words, ExitCode::from(2), line, "");
    }
    for name in ["%picture", "-"] {
        let words = ["draw", "tiny", "%script", "--svg", name, "--vcd", name];
        let line = "--vcd names the picture of --svg";
        ends(&rt, place, &words, ExitCode::from(2), line, "");
    }
    remove_names(&rt, place);
}

#[test]
fn folders_for_stores(rt: HostRuntime) {
    let place = place(&rt, process::id(rt.process()));
    let place = place.as_str();
    make(&rt, place, "%script", b"mark\n");
    let folder = named(&rt, place, "%folder");
    fs::create_dir(&rt, folder.as_str()).expect(&rt, "a folder");
    let told = "the file: Is a directory (os error 21)\nit is a folder";
    let words = ["live", "tiny", "%folder", "--why"];
    ends(&rt, place, &words, ExitCode::FAILURE, told, "");
    let words = ["run", "tiny", "%script", "--store", "%folder", "--why"];
    ends(&rt, place, &words, ExitCode::FAILURE, told, "");
    fs::remove_dir(&rt, folder.as_str()).expect(&rt, "a folder");
    remove(&rt, place, "%script");
}
