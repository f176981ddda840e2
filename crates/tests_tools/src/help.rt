// What the program tells of itself.
use command_help::{
    Shell, explained, is_colored, known_terms, term_words, write_completions, write_page,
};
use command_words::{parser, verbs};
use std::process::Abort;
use std::str;

// Fails where a word doesn't stand in a text.
fn stands<R: Abort>(rt: &R, text: &str, word: &str) {
    assert_eq!(*rt; (word, text.contains(word)), (word, true));
}

// How a shell's completions name an option.
fn option_word<R: Abort + AllocGlobal>(rt: &R, shell: Shell, name: &str) -> String {
    let word = match shell {
        Shell::Bash => format!(in rt.alloc(); " --{name}"),
        Shell::Zsh => format!(in rt.alloc(); "'--{name}["),
        Shell::Fish => format!(in rt.alloc(); " -l {name} "),
    };
    word.expect(rt, "memory")
}

#[test]
fn completions_of_each_shell(rt: HostRuntime) {
    for shell in [Shell::Bash, Shell::Zsh, Shell::Fish] {
        let mut written = Vec::new(rt.alloc());
        write_completions(shell, &mut written).expect(&rt, "room");
        let text = str::from_utf8(&written).expect(&rt, "UTF-8");
        for verb in verbs() {
            stands(&rt, text, verb.name);
            for switch in verb.switches {
                stands(&rt, text, &option_word(&rt, shell, switch.name));
            }
        }
        for term in known_terms() {
            stands(&rt, text, term.word);
        }
    }
}

#[test]
fn the_manual_page(rt: HostRuntime) {
    let mut written = Vec::new(rt.alloc());
    write_page(&mut written).expect(&rt, "room");
    let text = str::from_utf8(&written).expect(&rt, "UTF-8");
    stands(
        &rt,
        text,
        "\n\\fBnvctl run\\fR \\fIPROFILE\\fR \\fISCRIPT\\fR [\\fB\\-\\-out\\fR \\fISTORE\\fR] [\\fB\\-\\-store\\fR \\fISTORE\\fR] [\\fB\\-\\-commands\\fR \\fITRACE\\fR] [\\fB\\-\\-stats\\fR] [\\fB\\-\\-json\\fR]\n",
    );
    stands(&rt, text, "\n\\fBnvctl explain\\fR [\\fIWORD\\fR]\n");
    stands(
        &rt,
        text,
        ".TP\n\\fB\\-\\-allow\\-empty\\fR\nTakes a trace without a command for a lawful one.\n",
    );
    for verb in verbs() {
        stands(&rt, text, verb.name);
    }
}

#[test]
fn words_that_are_explained(rt: HostRuntime) {
    let term = explained(known_terms(), "TrailFull").expect(&rt, "a term");
    let told = term.to_string(rt.alloc()).expect(&rt, "memory");
    assert_eq!(rt;
        told.as_str(),
        "A refusal of a write: the newest finished save lacks as many writes as the profile's trail allows.
So no image may be further behind than that.
Finish a save, then ask again."
    );
    assert_eq!(rt; explained(known_terms(), "trailfull").is_none(), true);
    let words = term_words(rt.alloc(), known_terms()).expect(&rt, "memory");
    assert_eq!(rt;
        (words.len(), words.first().copied(), words.last().copied()),
        (26, Some("mark"), Some("Memory"))
    );
}

// Words of the program, and whether they are some that it takes.
const TAKEN: [(&[&str], bool); 8] = [
    (
        &["nvctl", "run", "tiny", "-", "--out", "store", "--json"],
        true,
    ),
    (&["nvctl", "crash", "tiny", "-", "--line", "7"], true),
    (&["nvctl", "crash", "tiny", "-", "--line", "seven"], false),
    (&["nvctl", "draw", "tiny", "-"], false),
    (
        &["nvctl", "draw", "tiny", "-", "--svg", "a", "--vcd", "b"],
        true,
    ),
    (&["nvctl", "explain"], true),
    (&["nvctl", "completions", "fish", "--why"], true),
    (&["nvctl", "completions", "csh"], false),
];

#[test]
fn words_that_are_taken(rt: HostRuntime) {
    for (words, is_taken) in TAKEN {
        let parser = parser(rt.alloc(), "1").expect(&rt, "memory");
        let found = parser.try_get_matches_from(words).is_ok();
        assert_eq!(rt; (words, found), (words, is_taken));
    }
}

#[test]
fn shells_and_colors(rt: HostRuntime) {
    assert_eq!(rt; Shell::named("zsh"), Some(Shell::Zsh));
    assert_eq!(rt; Shell::named("ZSH"), None);
    assert_eq!(rt; is_colored(true, None), true);
    assert_eq!(rt; is_colored(true, Some("")), true);
    assert_eq!(rt; is_colored(true, Some("0")), false);
    assert_eq!(rt; is_colored(false, None), false);
}
