// Which lines are written and read.

/// A line, and the byte that a write gives it.
#[derive(Clone, Copy)]
pub struct Pick {
    pub line: u64,
    pub byte: u8,
}

/// Pseudo-random lines of a memory, one after another.
#[derive(Clone, Copy)]
pub struct Picks {
    salt: u64,
    lines: u64,
}

impl Picks {
    /// Picks of so many lines.
    pub(crate) fn new(lines: u64) -> Picks {
        Picks { salt: 7, lines }
    }

    /// The next pick.
    pub(crate) fn next(&mut self) -> Pick {
        self.salt = self
            .salt
            .wrapping_mul(6_364_136_223_846_793_005)
            .wrapping_add(1_442_695_040_888_963_407);
        let random = self.salt >> 33;
        Pick {
            line: random.checked_rem(self.lines).unwrap_or(0),
            byte: (random % 256) as u8,
        }
    }
}
