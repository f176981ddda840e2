// The keys of a profile's tables, and the limits of their numbers.

/// Keys whose numbers are `least` to `most`.
#[derive(Clone, Copy, Drop)]
pub(crate) struct Limits {
    pub(crate) keys: &'static [&'static str],
    pub(crate) least: u64,
    pub(crate) most: u64,
    /// Whether they may be missing.
    pub(crate) optional: bool,
}

/// A table of a profile, with its keys that have a number.
#[derive(Clone, Copy, Drop)]
pub(crate) struct KnownTable {
    pub(crate) name: &'static str,
    pub(crate) limits: &'static [Limits],
}

/// The names of the tables.
pub(crate) const TABLE_NAMES: [&str; 4] = ["timing", "geometry", "costs", "module"];

/// The table of the times.
const TIMING: KnownTable = KnownTable {
    name: "timing",
    limits: &[
        Limits {
            keys: &[
                "tRCD", "tRP", "tRAS", "CL", "CWL", "tCCD_S", "tCCD_L", "tRRD_S", "tRRD_L", "tFAW",
                "tWR", "tWTR_S", "tWTR_L", "tRTP", "tRTW", "tCS", "tRFC",
            ],
            least: 1,
            most: 100_000,
            optional: false,
        },
        Limits {
            keys: &["tREFI"],
            least: 1,
            most: 1_000_000,
            optional: false,
        },
    ],
};

/// The tables. That of the module has the key `map` too.
pub(crate) const TABLES: [KnownTable; 4] = [
    TIMING,
    KnownTable {
        name: "geometry",
        limits: &[
            Limits {
                keys: &["channels"],
                least: 1,
                most: 8,
                optional: false,
            },
            Limits {
                keys: &["ranks"],
                least: 1,
                most: 4,
                optional: false,
            },
            Limits {
                keys: &["groups"],
                least: 2,
                most: 4,
                optional: false,
            },
            Limits {
                keys: &["banks"],
                least: 4,
                most: 4,
                optional: false,
            },
            Limits {
                keys: &["rows", "columns"],
                least: 1,
                most: 65_536,
                optional: false,
            },
        ],
    },
    KnownTable {
        name: "costs",
        limits: &[
            Limits {
                keys: &[
                    "e_act", "e_col", "e_pre", "e_ref", "e_sre", "e_clk", "e_mark", "e_sync",
                    "e_page", "leak",
                ],
                least: 0,
                most: 1_000_000,
                optional: false,
            },
            Limits {
                keys: &["e_digest"],
                least: 0,
                most: 1_000_000,
                optional: true,
            },
        ],
    },
    KnownTable {
        name: "module",
        limits: &[
            Limits {
                keys: &["depth", "reads"],
                least: 1,
                most: 64,
                optional: false,
            },
            Limits {
                keys: &["trail"],
                least: 1,
                most: 65_536,
                optional: false,
            },
            Limits {
                keys: &["notices"],
                least: 1,
                most: 4_096,
                optional: false,
            },
            Limits {
                keys: &["retries"],
                least: 0,
                most: 16,
                optional: true,
            },
        ],
    },
];

/// The tables of the numbers for commands alone.
pub(crate) const COMMAND_TABLES: [KnownTable; 2] = [
    TIMING,
    KnownTable {
        name: "geometry",
        limits: &[
            Limits {
                keys: &["channels", "ranks"],
                least: 1,
                most: 8,
                optional: false,
            },
            Limits {
                keys: &["groups"],
                least: 2,
                most: 4,
                optional: false,
            },
            Limits {
                keys: &["banks"],
                least: 4,
                most: 4,
                optional: false,
            },
            Limits {
                keys: &["rows"],
                least: 1,
                most: 262_144,
                optional: false,
            },
            Limits {
                keys: &["columns"],
                least: 1,
                most: 1_024,
                optional: false,
            },
        ],
    },
];
