// The keys of a profile, their limits, and which numbers make a profile: a second reading of the profile's rules. `tiny` is
// written down once more here.
use std::alloc::{AllocError, Global};

/// The fewest lines of a geometry.
const FEWEST_LINES: u64 = 64;

/// The most lines of a geometry.
const MOST_LINES: u64 = 65_536;

/// A key of a profile: the table that it stands in, its value in the small profile, and its limits.
#[derive(Clone, Copy, Drop)]
pub(crate) struct Key {
    pub table: &'static str,
    pub name: &'static str,
    pub value: u64,
    least: u64,
    most: u64,
    /// May it be missing?
    pub is_optional: bool,
}

// Of timing in clocks.
fn clocks(name: &'static str, value: u64) -> Key {
    Key {
        table: "timing",
        name,
        value,
        least: 1,
        most: 100_000,
        is_optional: false,
    }
}

// Of the geometry, where the powers of two are left to the whole profile.
fn parts(name: &'static str, value: u64, least: u64, most: u64) -> Key {
    Key {
        table: "geometry",
        name,
        value,
        least,
        most,
        is_optional: false,
    }
}

fn cost(name: &'static str, value: u64) -> Key {
    Key {
        table: "costs",
        name,
        value,
        least: 0,
        most: 1_000_000,
        is_optional: false,
    }
}

fn room(name: &'static str, value: u64, most: u64) -> Key {
    Key {
        table: "module",
        name,
        value,
        least: 1,
        most,
        is_optional: false,
    }
}

// The keys of the timing.
fn timing() -> [Key; 18] {
    [
        clocks("tRCD", 16),
        clocks("tRP", 16),
        clocks("tRAS", 39),
        clocks("CL", 16),
        clocks("CWL", 12),
        clocks("tCCD_S", 4),
        clocks("tCCD_L", 6),
        clocks("tRRD_S", 4),
        clocks("tRRD_L", 6),
        clocks("tFAW", 26),
        clocks("tWR", 18),
        clocks("tWTR_S", 3),
        clocks("tWTR_L", 9),
        clocks("tRTP", 9),
        clocks("tRTW", 10),
        clocks("tCS", 2),
        clocks("tRFC", 420),
        Key {
            most: 1_000_000,
            ..clocks("tREFI", 9360)
        },
    ]
}

fn geometry() -> [Key; 6] {
    [
        parts("channels", 2, 1, 8),
        parts("ranks", 1, 1, 4),
        parts("groups", 2, 2, 4),
        parts("banks", 4, 4, 4),
        parts("rows", 2, 1, 65_536),
        parts("columns", 4, 1, 65_536),
    ]
}

fn costs() -> [Key; 11] {
    [
        cost("e_act", 4),
        cost("e_col", 2),
        cost("e_pre", 1),
        cost("e_ref", 20),
        cost("e_sre", 1),
        cost("e_clk", 1),
        cost("e_mark", 50),
        cost("e_sync", 100),
        cost("e_page", 1000),
        cost("leak", 1),
        Key {
            is_optional: true,
            ..cost("e_digest", 100)
        },
    ]
}

fn module() -> [Key; 5] {
    [
        room("depth", 8, 64),
        room("reads", 8, 64),
        room("trail", 1024, 65_536),
        room("notices", 64, 4096),
        Key {
            least: 0,
            is_optional: true,
            ..room("retries", 2, 16)
        },
    ]
}

/// All keys with a number, table by table.
pub(crate) fn table(alloc: Global) -> Result<Vec<Key>, AllocError> {
    let mut keys = timing().to_vec(alloc)?;
    keys.extend_from_slice(&geometry())?;
    keys.extend_from_slice(&costs())?;
    keys.extend_from_slice(&module())?;
    Ok(keys)
}

/// The small profile with the value at one place of its table changed.
#[derive(Clone, Copy, Drop)]
pub(crate) struct Numbers<'a> {
    pub keys: &'a [Key],
    pub place: usize,
    pub value: u64,
}

impl Numbers<'_> {
    /// The value under a name, or 0 where there is none.
    fn of(&self, name: &str) -> u64 {
        for (place, key) in self.keys.iter().enumerate() {
            if key.name == name {
                return if place == self.place {
                    self.value
                } else {
                    key.value
                };
            }
        }
        0
    }

    fn sum(&self, names: &[&str]) -> u64 {
        names
            .iter()
            .fold(0_u64, |sum, name| sum.saturating_add(self.of(name)))
    }

    // No value is outside the limits of its key.
    fn are_within(&self) -> bool {
        match self.keys.get(self.place) {
            Some(key) => key.least <= self.value && self.value <= key.most,
            None => true,
        }
    }

    // All parts of the geometry are powers of two, and there are neither too few nor too many lines.
    fn is_geometry(&self) -> bool {
        let names = ["channels", "ranks", "groups", "banks", "rows", "columns"];
        let lines = names
            .iter()
            .fold(1_u64, |lines, name| lines.saturating_mul(self.of(name)));
        let fits = FEWEST_LINES <= lines && lines <= MOST_LINES;
        fits && names.iter().all(|name| self.of(name).is_power_of_two())
    }

    // How many clocks an entry of a drain takes at most, and its close step.
    fn entry(&self) -> u64 {
        let write = self.sum(&["tRCD", "CWL", "tWR"]).saturating_add(4);
        let refreshes = self.of("ranks").saturating_mul(self.of("tRFC"));
        refreshes
            .saturating_add(write.max(self.of("tRAS")))
            .saturating_add(self.of("tRP"))
    }

    fn close(&self) -> u64 {
        let write = self.sum(&["CWL", "tWR"]).saturating_add(4);
        let longest = write
            .max(self.of("tRAS"))
            .max(self.of("tRTP"))
            .max(self.of("tRFC"));
        let ranks = self.of("ranks").saturating_mul(2).saturating_sub(1);
        longest.saturating_add(self.of("tRP")).saturating_add(ranks)
    }

    // A drain's entry and close step go twice into a refresh interval, with four clocks for each rank.
    fn has_time_to_refresh(&self) -> bool {
        let steps = self.entry().saturating_add(self.close());
        let ranks = self.of("ranks").saturating_mul(4);
        steps.saturating_mul(2).saturating_add(ranks) <= self.of("tREFI")
    }

    // Commands to one bank keep apart what those to several have to.
    fn has_short_windows(&self) -> bool {
        let row = self.sum(&["tRAS", "tRP"]);
        let column = self.sum(&["tRP", "tRCD"]);
        ["tFAW", "tRRD_S", "tRRD_L"]
            .iter()
            .all(|name| self.of(name) <= row)
            && ["tRTW", "tCCD_S", "tCCD_L"]
                .iter()
                .all(|name| self.of(name) <= column)
            && self.of("tCS").saturating_add(4) <= column
    }

    /// Do they make a profile?
    pub(crate) fn make_a_profile(&self) -> bool {
        self.are_within()
            && self.is_geometry()
            && self.has_time_to_refresh()
            && self.has_short_windows()
    }
}

/// The text of the small profile, with this text in place of the line of the key at a place.
pub(crate) fn text_with(
    alloc: Global,
    keys: &[Key],
    place: usize,
    line: &str,
) -> anyhow::Result<String> {
    let mut text = String::new(alloc);
    let mut table = "";
    for (at, key) in keys.iter().enumerate() {
        if key.table != table {
            table = key.table;
            write!(text, "[{table}]\n")?;
        }
        if at == place {
            text.push_str(line)?;
        } else {
            write!(text, "{} = {}\n", key.name, key.value)?;
        }
    }
    text.push_str("map = \"xor\"\n")?;
    Ok(text)
}
