// Texts of lines and of bad lines.
use crate::check::same;
use ddr4_timing::timing::Geometry;
use interleave_map::Interleaving;
use line_memory::Write;
use nv_script::{SCRIPT_BYTES, ScriptFault, ScriptLine, line_numbers, read_script};
use save_device::Pick;
use std::alloc::Global;
use std::process::Abort;

const TWO_CHANNELS: Geometry = Geometry {
    channels: 2,
    ranks: 1,
    groups: 2,
    banks: 4,
    rows: 2,
    columns: 4,
};

fn read(alloc: Global, script: &[u8]) -> Result<Vec<ScriptLine>, ScriptFault> {
    read_script(alloc, script, &TWO_CHANNELS)
}

// Whether a script is refused for this line.
fn refuses(alloc: Global, script: &[u8], number: usize) -> bool {
    match read(alloc, script) {
        Err(fault) => fault == ScriptFault::Line { number },
        Ok(_) => false,
    }
}

// Fails where a script hasn't just one line that isn't skipped, this one.
fn is_just<R: Abort + AllocGlobal>(rt: &R, script: &str, line: ScriptLine) {
    let is_so = match read(rt.alloc(), script.as_bytes()) {
        Ok(lines) => lines.as_slice() == [line].as_slice(),
        Err(_) => false,
    };
    assert!(*rt; is_so, "{script}");
}

#[test]
fn each_verb(rt: HostRuntime) {
    is_just(&rt, "format", ScriptLine::Format);
    is_just(
        &rt,
        "write 7 0f",
        ScriptLine::Write(Write {
            line: 7,
            data: [15; 64],
        }),
    );
    is_just(&rt, "read 127", ScriptLine::Read { line: 127 });
    is_just(
        &rt,
        "work 1 22",
        ScriptLine::Work {
            channel: 1,
            most: 22,
        },
    );
    is_just(&rt, "sense 3339", ScriptLine::Sense { level: 3339 });
    is_just(&rt, "arm", ScriptLine::Arm);
    is_just(&rt, "disarm", ScriptLine::Disarm);
    is_just(&rt, "save", ScriptLine::Save);
    is_just(&rt, "step", ScriptLine::Step);
    is_just(&rt, "lose", ScriptLine::Lose);
    is_just(&rt, "lie 2000", ScriptLine::Lie { units: 2000 });
    is_just(&rt, "fuse 0", ScriptLine::Fuse { calls: Some(0) });
    is_just(&rt, "fuse off", ScriptLine::Fuse { calls: None });
    is_just(&rt, "onefault 1", ScriptLine::OneFault { call: 1 });
    is_just(
        &rt,
        "onefault 18446744073709551615",
        ScriptLine::OneFault { call: u64::MAX },
    );
    is_just(&rt, "mark", ScriptLine::Mark);
}

fn restore(pick: Option<Pick>, map: Option<Interleaving>) -> ScriptLine {
    ScriptLine::Restore { pick, map }
}

#[test]
fn restores(rt: HostRuntime) {
    is_just(&rt, "restore", restore(None, None));
    is_just(&rt, "restore old", restore(Some(Pick::Old), None));
    is_just(&rt, "restore new", restore(Some(Pick::New), None));
    is_just(&rt, "restore torna5", restore(Some(Pick::Torn(0xa5)), None));
    is_just(&rt, "restore tornA5", restore(Some(Pick::Torn(0xa5)), None));
    is_just(
        &rt,
        "restore old xor",
        restore(Some(Pick::Old), Some(Interleaving::Xor)),
    );
    is_just(
        &rt,
        "restore new lines",
        restore(Some(Pick::New), Some(Interleaving::Lines)),
    );
    is_just(
        &rt,
        "restore torn00 xor",
        restore(Some(Pick::Torn(0)), Some(Interleaving::Xor)),
    );
}

#[test]
fn spaces_and_numbers(rt: HostRuntime) {
    for text in [
        "read 7",
        "  read   7  ",
        "read 0007",
        "\n#\u{e9} nothing\n   \nread 7",
        "# read 8\nread 7\n\n",
    ] {
        is_just(&rt, text, ScriptLine::Read { line: 7 });
    }
    let most = ScriptLine::Read { line: u64::MAX };
    is_just(&rt, "read 18446744073709551615", most);
    let capitals = ScriptLine::Write(Write {
        line: 0,
        data: [0xab; 64],
    });
    is_just(&rt, "write 0 aB", capitals);
}

#[test]
fn numbers_of_the_lines(rt: HostRuntime) {
    let script = b"# a comment\nformat\n\n   \nread 7\n#\nmark";
    let is_so = match line_numbers(rt.alloc(), script) {
        Ok(numbers) => numbers.as_slice() == [2, 5, 7].as_slice(),
        Err(_) => false,
    };
    assert!(rt; is_so, "numbers of the lines that aren't skipped");
}

const BAD_LINES: [&str; 51] = [
    "wirte 0 11",
    "Format",
    "format now",
    "write 0 1G",
    "write 0 111",
    "write 0 1",
    "write 0",
    "write",
    "write +0 11",
    "write -1 11",
    "write 0 +1",
    "write 18446744073709551616 11",
    "read",
    "read 0x7",
    "read \u{661}",
    "read 7\t",
    "read 7\r",
    "  # a comment begins in the first column",
    "work 1",
    "work 2 1",
    "work 1 x",
    "work 0 1 1",
    "sense",
    "sense -1",
    "arm 1",
    "disarm 1",
    "save now",
    "step 1",
    "lose all",
    "lie",
    "fuse",
    "fuse on",
    "fuse -1",
    "fuse off 1",
    "restore older",
    "restore torn",
    "restore torn1",
    "restore torn111",
    "restore torn 11",
    "restore xor",
    "restore old row",
    "restore old xor xor",
    "mark 1",
    "onefault",
    "onefault 0",
    "onefault 00",
    "onefault -1",
    "onefault 1 2",
    "onefault off",
    "onefault 18446744073709551616",
    "one fault 1",
];

#[test]
fn bad_lines(rt: HostRuntime) {
    for text in BAD_LINES {
        assert!(rt; refuses(rt.alloc(), text.as_bytes(), 1), "{text}");
    }
}

#[test]
fn the_first_bad_line_is_named(rt: HostRuntime) {
    assert!(rt; refuses(rt.alloc(), b"format\nread 0\n#\xff\n", 3));
    assert!(rt; refuses(rt.alloc(), b"format\nwirte 0 11\nwork 2 1\n", 2));
    assert!(rt; refuses(rt.alloc(), b"\n\n\nfuse\n#\xff", 4));
}

#[test]
fn limits_of_a_script(rt: HostRuntime) {
    let mut script = Vec::from_elem(rt.alloc(), b'\n', 4096).expect(&rt, "memory");
    assert!(rt; read(rt.alloc(), &script).is_ok());
    script.push(b' ').expect(&rt, "memory");
    assert!(rt; refuses(rt.alloc(), &script, 4097));
    let mut line = Vec::from_elem(rt.alloc(), b' ', 257).expect(&rt, "memory");
    line[256] = b'\n';
    assert!(rt; read(rt.alloc(), &line).is_ok());
    line[256] = b' ';
    assert!(rt; refuses(rt.alloc(), &line, 1));
    line[0] = b'#';
    assert!(rt; refuses(rt.alloc(), &line, 1));
    same(&rt, SCRIPT_BYTES, 1052673);
}

#[test]
fn faults(rt: HostRuntime) {
    same(
        &rt,
        ScriptFault::Line { number: 4097 }
            .to_string(rt.alloc())
            .expect(&rt, "memory")
            .as_str(),
        "script line 4097",
    );
    same(
        &rt,
        ScriptFault::Writer
            .to_string(rt.alloc())
            .expect(&rt, "memory")
            .as_str(),
        "file -",
    );
    same(
        &rt,
        ScriptFault::Memory
            .to_string(rt.alloc())
            .expect(&rt, "memory")
            .as_str(),
        "memory",
    );
}
