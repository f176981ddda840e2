// The small profile with costs of several kinds.
use nv_profile::{Profile, TINY, read_profile};
use std::alloc::Global;

/// What the actions of a profile cost, how many calls of a closing save it may make again, a level of the gauge at which it arms,
/// and how many units a lie is counted in.
#[derive(Clone, Copy, Drop)]
pub struct Setting {
    pub name: &'static str,
    costs: &'static str,
    pub retries: u64,
    pub level: &'static str,
    pub unit: u64,
    /// It is tried also where not all is.
    pub is_short: bool,
}

const SMALL: &str =
    "e_act = 4\ne_col = 2\ne_pre = 1\ne_ref = 20\ne_sre = 1\ne_clk = 1\ne_mark = 50\ne_sync = 100\ne_page = 1000\nleak = 1\n";

/// The costs of the small profile, also with calls that may be made again, none, and the largest that a profile may have.
pub const SETTINGS: [Setting; 6] = [
    Setting {
        name: "small costs",
        costs: SMALL,
        retries: 0,
        level: "9000",
        unit: 1,
        is_short: true,
    },
    Setting {
        name: "small costs, 1 call made again",
        costs: SMALL,
        retries: 1,
        level: "60000",
        unit: 1,
        is_short: false,
    },
    Setting {
        name: "small costs, 2 calls made again",
        costs: SMALL,
        retries: 2,
        level: "60000",
        unit: 1,
        is_short: true,
    },
    Setting {
        name: "small costs, 16 calls made again",
        costs: SMALL,
        retries: 16,
        level: "60000",
        unit: 1,
        is_short: false,
    },
    Setting {
        name: "no costs",
        costs: "e_act = 0\ne_col = 0\ne_pre = 0\ne_ref = 0\ne_sre = 0\ne_clk = 0\ne_mark = 0\ne_sync = 0\ne_page = 0\nleak = 0\n",
        retries: 0,
        level: "0",
        unit: 1,
        is_short: true,
    },
    Setting {
        name: "the largest costs",
        costs: "e_act = 1000000\ne_col = 1000000\ne_pre = 1000000\ne_ref = 1000000\ne_sre = 1000000\ne_clk = 1000000\ne_mark = 1000000\ne_sync = 1000000\ne_page = 1000000\nleak = 1000000\n",
        retries: 0,
        level: "9000000000",
        unit: 1_000_000,
        is_short: true,
    },
];

impl Setting {
    /// The small profile with these costs and repeats.
    pub(crate) fn profile(&self, alloc: Global) -> anyhow::Result<Profile> {
        let Some((head, rest)) = TINY.split_once("[costs]") else {
            anyhow::bail!("a profile without costs");
        };
        let Some((_costs, tail)) = rest.split_once("[module]") else {
            anyhow::bail!("a profile without a module");
        };
        let text = format!(in alloc;
            "{head}[costs]\n{}[module]\nretries = {}{tail}",
            self.costs, self.retries
        )?;
        Ok(read_profile(alloc, text.as_bytes())?)
    }

    /// A script's text, armed at this level; its low readings are higher by what the repeats cost, a page and a tick each.
    pub(crate) fn script(&self, alloc: Global, text: &str) -> anyhow::Result<String> {
        let repeats = self.retries.wrapping_mul(1_001);
        let least = format!(in alloc; "{}", repeats.wrapping_add(3_854))?;
        let low = format!(in alloc; "{}", repeats.wrapping_add(3_853))?;
        let text = text.replace(alloc, "9000", self.level)?;
        let text = text.replace(alloc, "3854", least.as_str())?;
        Ok(text.replace(alloc, "3853", low.as_str())?)
    }
}
