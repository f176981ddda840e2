// The same answers as objects.
use crate::program::{ends, make, place, remove};
use std::process::{self, ExitCode};

const OBJECTS: &str = r#"{"answer":"formatted"}
{"answer":"accepted","mark":0,"number":0}
{"answer":"idle","channel":0}
{"answer":"saved","count":1,"generation":2}
{"answer":"restored","count":1,"generation":2,"verdict":"Complete"}
"#;

const FAULT_OBJECTS: &str =
    r#"{"answer":"fault","channel":0,"first":{"answer":"command","bank":0,"clock":0,"command":"ACT","group":0,"line":1,"rank":0,"row":1},"rule":3,"second":{"answer":"command","bank":0,"clock":15,"column":3,"command":"RD","group":0,"line":2,"rank":0},"why":"ACT to RD, same bank: at least tRCD = 16, here 15"}
{"answer":"lawful","channel":1,"commands":0}
"#;

const ALL_FAULT_OBJECTS: &str =
    r#"{"answer":"faults","commands":1,"first":{"answer":"fault","channel":0,"first":{"answer":"command","bank":0,"clock":0,"command":"ACT","group":0,"line":1,"rank":0,"row":1},"rule":3,"second":{"answer":"command","bank":0,"clock":15,"column":3,"command":"RD","group":0,"line":2,"rank":0},"why":"ACT to RD, same bank: at least tRCD = 16, here 15"}}
{"answer":"lawful","channel":1,"commands":0}
"#;

const TINY_OBJECT: &str =
    r#"{"answer":"profile","channels":2,"close":437,"device_bytes":24576,"entry":486,"lines":128,"map":"lines","saves":[{"answer":"save","floor":3339,"least_reading":3340,"pending":0,"reserve":3328,"steps":10},{"answer":"save","floor":3853,"least_reading":3854,"pending":1,"reserve":3841,"steps":11},{"answer":"save","floor":7451,"least_reading":7452,"pending":8,"reserve":7432,"steps":18},{"answer":"save","floor":11563,"least_reading":11564,"pending":16,"reserve":11536,"steps":26}]}
"#;

const CRASH_OBJECTS: &str =
    r#"{"answer":"stop","calls":0,"line":2,"outcomes":[{"acknowledged":0,"answer":"outcome","held":0,"restore":{"answer":"restored","count":0,"generation":1,"verdict":"Complete"},"times":18}],"stop":"dark"}
{"answer":"stop","line":2,"outcomes":[{"acknowledged":0,"answer":"outcome","held":0,"restore":{"answer":"restored","count":0,"generation":1,"verdict":"Complete"},"times":18}],"stop":"loss"}
{"answer":"stops","missing_with_complete":0,"missing_with_possible_loss":0,"stops":36}
"#;

const TABLE_OBJECTS: &str =
    r#"{"answer":"lines","first":2,"last":2,"outcomes":[{"acknowledged":0,"answer":"outcome","held":0,"restore":{"answer":"restored","count":0,"generation":1,"verdict":"Complete"},"times":36}]}
{"answer":"stops","missing_with_complete":0,"missing_with_possible_loss":0,"stops":36}
"#;

// Words one after another, with the status and the objects.
const WITH_OBJECTS: [(&[&str], ExitCode, &str); 7] = [
    (
        &["run", "tiny", "%saving", "--json", "--out", "%store"],
        ExitCode::SUCCESS,
        OBJECTS,
    ),
    (
        &["show", "%store", "--json"],
        ExitCode::SUCCESS,
        r#"{"answer":"restored","count":1,"generation":2,"verdict":"Complete"}
{"answer":"line","bytes":"a5a5a5a5a5a5a5a5a5a5a5a5a5a5a5a5a5a5a5a5a5a5a5a5a5a5a5a5a5a5a5a5a5a5a5a5a5a5a5a5a5a5a5a5a5a5a5a5a5a5a5a5a5a5a5a5a5a5a5a5a5a5a5a5","line":5}
"#,
    ),
    (
        &["check", "tiny", "%early", "--json"],
        ExitCode::FAILURE,
        FAULT_OBJECTS,
    ),
    (
        &["check", "tiny", "%early", "--all", "--json"],
        ExitCode::FAILURE,
        ALL_FAULT_OBJECTS,
    ),
    (
        &["profile", "tiny", "--json"],
        ExitCode::SUCCESS,
        TINY_OBJECT,
    ),
    (
        &["crash", "tiny", "%formats", "--line", "2", "--json"],
        ExitCode::SUCCESS,
        CRASH_OBJECTS,
    ),
    (
        &["crash", "tiny", "%formats", "--json"],
        ExitCode::SUCCESS,
        TABLE_OBJECTS,
    ),
];

#[test]
fn answers_as_objects(rt: HostRuntime) {
    let place = place(&rt, process::id(rt.process()));
    let place = place.as_str();
    make(
        &rt,
        place,
        "%saving",
        b"format\nwrite 5 a5\nwork 0 1\nsave\nrestore\n",
    );
    make(&rt, place, "%formats", b"# a store\nformat\n");
    make(&rt, place, "%early", b"0 0 ACT 0 0 0 1\n0 15 RD 0 0 0 3\n");
    make(&rt, place, "%store", b"");
    for (words, code, text) in WITH_OBJECTS {
        ends(&rt, place, words, code, "", text);
    }
    remove(&rt, place, "%saving");
    remove(&rt, place, "%formats");
    remove(&rt, place, "%early");
    remove(&rt, place, "%store");
}
