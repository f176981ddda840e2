// Scripts of a journal's calls.

/// What is asked of a life with a journal.
#[derive(Clone, Copy)]
pub(crate) enum Step {
    /// So many records of so many bytes.
    Append { count: u64, size: usize },
    /// The oldest records go, so many of them.
    Truncate { count: u64 },
    Save,
    Arm,
    Disarm,
    /// The mains are lost.
    Lose,
}

/// A script with its name.
#[derive(Clone, Copy)]
pub(crate) struct Script {
    pub(crate) name: &'static str,
    pub(crate) steps: &'static [Step],
}

// Records, saves, and a truncation between them.
const SAVES: [Step; 8] = [
    Step::Append { count: 3, size: 20 },
    Step::Save,
    Step::Append {
        count: 2,
        size: 200,
    },
    Step::Truncate { count: 2 },
    Step::Save,
    Step::Append { count: 1, size: 0 },
    Step::Save,
    Step::Lose,
];

// Records of an armed module, whose mains are lost.
const ARMED: [Step; 6] = [
    Step::Append { count: 2, size: 62 },
    Step::Arm,
    Step::Append { count: 4, size: 63 },
    Step::Truncate { count: 3 },
    Step::Append {
        count: 2,
        size: 124,
    },
    Step::Lose,
];

// An armed module that is disarmed again, and goes on.
const DISARMED: [Step; 8] = [
    Step::Arm,
    Step::Append {
        count: 3,
        size: 100,
    },
    Step::Disarm,
    Step::Append { count: 1, size: 10 },
    Step::Truncate { count: 1 },
    Step::Save,
    Step::Append { count: 2, size: 30 },
    Step::Lose,
];

// So many records, cut as they come, that the ring is gone round.
const ROUND: [Step; 12] = [
    Step::Append {
        count: 5,
        size: 1_000,
    },
    Step::Save,
    Step::Truncate { count: 4 },
    Step::Append {
        count: 5,
        size: 1_000,
    },
    Step::Save,
    Step::Truncate { count: 5 },
    Step::Append {
        count: 4,
        size: 1_200,
    },
    Step::Arm,
    Step::Truncate { count: 3 },
    Step::Append {
        count: 2,
        size: 1_300,
    },
    Step::Truncate { count: 2 },
    Step::Lose,
];

/// All scripts.
pub(crate) const SCRIPTS: [Script; 4] = [
    Script {
        name: "saves",
        steps: &SAVES,
    },
    Script {
        name: "armed",
        steps: &ARMED,
    },
    Script {
        name: "disarmed",
        steps: &DISARMED,
    },
    Script {
        name: "round the ring",
        steps: &ROUND,
    },
];
