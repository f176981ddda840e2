// The program's verbs.
ghost use Rattle.std.specs.Prelude.{◌≡◌};
ghost use Rattle.command_words.specs.Verbs.{names_of, verb_names};

use crate::verb::{Operand, Switch, Value, Verb, WordKind};

const PROFILE: Operand = Operand {
    name: "PROFILE",
    kind: WordKind::Profile,
    is_required: true,
    help: "The word tiny or tiny2, a module of 128 lines, or the profile's TOML file",
};

const SCRIPT: Operand = Operand {
    name: "SCRIPT",
    kind: WordKind::File,
    is_required: true,
    help: "The script's file, or - for standard input",
};

const JSON: Switch = Switch {
    name: "json",
    value: None,
    help: "Writes objects of JSON, one on a line",
};

const FORM: Switch = Switch {
    name: "form",
    value: Some(Value {
        name: "FORM",
        kind: WordKind::Form,
    }),
    help: "The trace is as ramulator2 or dramsim3 writes it, or plain",
};

const COLUMNS: Switch = Switch {
    name: "columns",
    value: Some(Value {
        name: "COLUMNS",
        kind: WordKind::Columns,
    }),
    help: "The trace is a table of these columns: clock,command,channel,rank,group,bank,row,column, in any order, and - for others",
};

/// The option of the program and of each verb.
pub const WHY: Switch = Switch {
    name: "why",
    value: None,
    help: "Tells the reason behind a fault, as a terminal is told it",
};

const RUN: Verb = Verb {
    name: "run",
    about: "Runs a script and prints an answer to each line",
    operands: &[PROFILE, SCRIPT],
    switches: &[
        Switch {
            name: "out",
            value: Some(Value {
                name: "STORE",
                kind: WordKind::File,
            }),
            help: "A file for the device's bytes after the last line",
        },
        Switch {
            name: "store",
            value: Some(Value {
                name: "STORE",
                kind: WordKind::File,
            }),
            help: "A file whose device the run begins with, and leaves there; it is made where there is none",
        },
        Switch {
            name: "commands",
            value: Some(Value {
                name: "TRACE",
                kind: WordKind::File,
            }),
            help: "A file for all commands of the first life, those of reads, saves and drains too; the n-th life has TRACE.n",
        },
        Switch {
            name: "stats",
            value: None,
            help: "Counts the commands of each life behind the answers, as check does, and how long its reads and writes waited",
        },
        JSON,
    ],
    any_of: &[],
};

const LIVE: Verb = Verb {
    name: "live",
    about: "Lives on a file: answers each line of standard input before it reads the next one",
    operands: &[
        PROFILE,
        Operand {
            name: "STORE",
            kind: WordKind::File,
            is_required: true,
            help: "The store's file, which is made where there is none",
        },
    ],
    switches: &[],
    any_of: &[],
};

const SHOW: Verb = Verb {
    name: "show",
    about: "Shows what a store restores to",
    operands: &[Operand {
        name: "STORE",
        kind: WordKind::File,
        is_required: true,
        help: "The store's file",
    }],
    switches: &[JSON],
    any_of: &[],
};

const LINT: Verb = Verb {
    name: "lint",
    about: "Tells the bad lines of a script, each with its reason",
    operands: &[PROFILE, SCRIPT],
    switches: &[],
    any_of: &[],
};

const CRASH: Verb = Verb {
    name: "crash",
    about: "Tells what a crash may leave of a script",
    operands: &[PROFILE, SCRIPT],
    switches: &[
        Switch {
            name: "line",
            value: Some(Value {
                name: "N",
                kind: WordKind::Number,
            }),
            help: "Shows each stop within this line of the script alone",
        },
        JSON,
    ],
    any_of: &[],
};

const CHECK: Verb = Verb {
    name: "check",
    about: "Tells whether the commands of a trace are lawful",
    operands: &[
        PROFILE,
        Operand {
            name: "TRACE",
            kind: WordKind::File,
            is_required: true,
            help: "The trace's file, or - for standard input: lines as run prints commands, or comma separated values",
        },
    ],
    switches: &[
        Switch {
            name: "answers",
            value: None,
            help: "The trace is the output of run: passes over answers that are no commands",
        },
        Switch {
            name: "allow-empty",
            value: None,
            help: "Takes a trace without a command for a lawful one",
        },
        Switch {
            name: "all",
            value: None,
            help: "Tells each rule that is broken, how often and where first; each command counts as issued",
        },
        Switch {
            name: "stats",
            value: None,
            help: "Counts the commands of each lawful channel and bank, and their hits, misses and conflicts of rows",
        },
        FORM,
        COLUMNS,
        JSON,
    ],
    any_of: &[],
};

const DRAW: Verb = Verb {
    name: "draw",
    about: "Draws the commands of a trace or a script",
    operands: &[
        PROFILE,
        Operand {
            name: "SCHEDULE",
            kind: WordKind::File,
            is_required: true,
            help: "The file of a script or a trace, or - for standard input",
        },
    ],
    switches: &[
        Switch {
            name: "svg",
            value: Some(Value {
                name: "FILE",
                kind: WordKind::File,
            }),
            help: "A file for the picture as SVG, or - for standard output",
        },
        Switch {
            name: "vcd",
            value: Some(Value {
                name: "FILE",
                kind: WordKind::File,
            }),
            help: "A file for the picture as VCD, or - for standard output",
        },
        Switch {
            name: "from",
            value: Some(Value {
                name: "CLOCK",
                kind: WordKind::Number,
            }),
            help: "The first clock that is drawn",
        },
        Switch {
            name: "to",
            value: Some(Value {
                name: "CLOCK",
                kind: WordKind::Number,
            }),
            help: "The last clock that is drawn",
        },
        FORM,
        COLUMNS,
    ],
    any_of: &["svg", "vcd"],
};

const PROFILE_VERB: Verb = Verb {
    name: "profile",
    about: "Tells what a profile means, or why a text is none",
    operands: &[PROFILE],
    switches: &[JSON],
    any_of: &[],
};

const EXPLAIN: Verb = Verb {
    name: "explain",
    about: "Explains a word of answers in three lines, or names those that it can",
    operands: &[Operand {
        name: "WORD",
        kind: WordKind::Term,
        is_required: false,
        help: "A mode, a refusal, a verdict, or mark or persistent",
    }],
    switches: &[],
    any_of: &[],
};

const COMPLETIONS: Verb = Verb {
    name: "completions",
    about: "Writes the script by which a shell completes these words",
    operands: &[Operand {
        name: "SHELL",
        kind: WordKind::Shell,
        is_required: true,
        help: "bash, zsh or fish",
    }],
    switches: &[],
    any_of: &[],
};

// All verbs.
const VERBS: &[Verb] = &[
    RUN,
    LIVE,
    SHOW,
    LINT,
    CRASH,
    CHECK,
    DRAW,
    PROFILE_VERB,
    EXPLAIN,
    COMPLETIONS,
];

/// The program's verbs.
pub fn verbs() -> &'static [Verb]
    ensures { names_of result.now ≡ verb_names }
{
    VERBS
}
