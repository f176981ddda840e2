// The verbs of scripts, and the words behind them.

/// What a word behind a verb is.
#[derive(Clone, Copy, Debug, PartialEq, Eq)]
pub(crate) enum Part {
    Number,
    Ordinal,
    Byte,
    Channel,
    Calls,
    Pick,
    Map,
}

/// A verb, how a line with it is written, and the words that may stand behind it.
#[derive(Clone, Copy, Drop)]
pub(crate) struct Verb {
    pub(crate) name: &'static str,
    pub(crate) usage: &'static str,
    pub(crate) parts: &'static [Part],
    /// Whether the last words may be left out.
    pub(crate) is_shorter: bool,
}

/// All of them.
pub(crate) const VERBS: [Verb; 15] = [
    Verb {
        name: "format",
        usage: "format",
        parts: &[],
        is_shorter: false,
    },
    Verb {
        name: "write",
        usage: "write LINE BYTE",
        parts: &[Part::Number, Part::Byte],
        is_shorter: false,
    },
    Verb {
        name: "read",
        usage: "read LINE",
        parts: &[Part::Number],
        is_shorter: false,
    },
    Verb {
        name: "work",
        usage: "work CHANNEL N",
        parts: &[Part::Channel, Part::Number],
        is_shorter: false,
    },
    Verb {
        name: "sense",
        usage: "sense N",
        parts: &[Part::Number],
        is_shorter: false,
    },
    Verb {
        name: "arm",
        usage: "arm",
        parts: &[],
        is_shorter: false,
    },
    Verb {
        name: "disarm",
        usage: "disarm",
        parts: &[],
        is_shorter: false,
    },
    Verb {
        name: "save",
        usage: "save",
        parts: &[],
        is_shorter: false,
    },
    Verb {
        name: "step",
        usage: "step",
        parts: &[],
        is_shorter: false,
    },
    Verb {
        name: "lose",
        usage: "lose",
        parts: &[],
        is_shorter: false,
    },
    Verb {
        name: "lie",
        usage: "lie N",
        parts: &[Part::Number],
        is_shorter: false,
    },
    Verb {
        name: "fuse",
        usage: "fuse K, or fuse off",
        parts: &[Part::Calls],
        is_shorter: false,
    },
    Verb {
        name: "onefault",
        usage: "onefault K",
        parts: &[Part::Ordinal],
        is_shorter: false,
    },
    Verb {
        name: "mark",
        usage: "mark",
        parts: &[],
        is_shorter: false,
    },
    Verb {
        name: "restore",
        usage: "restore, restore PICK, or restore PICK MAP",
        parts: &[Part::Pick, Part::Map],
        is_shorter: true,
    },
];

/// Their names.
pub(crate) const NAMES: [&str; 15] = [
    "format", "write", "read", "work", "sense", "arm", "disarm", "save", "step", "lose", "lie",
    "fuse", "onefault", "mark", "restore",
];
