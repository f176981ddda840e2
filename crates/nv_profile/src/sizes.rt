// How much room a module has.
ghost use Rattle.std.specs.Prelude.{IfSome, IsNone};
ghost use Rattle.toml.specs.View.{table_view};
ghost use Rattle.nv_profile.specs.Profile.{SaysModule, SaysNoModule};

use crate::table::{has, number_if_any, number_within, size, word};
use interleave_map::Interleaving;
use toml::Table;

/// How much room a module has.
#[derive(Clone, Copy, Debug, PartialEq, Eq)]
pub struct ModuleSizes {
    /// The writes that each channel's queue may hold; 1 to 64.
    pub depth: u64,
    /// The reads of each channel that may be pending or not collected; 1 to 64.
    pub reads: u64,
    /// The accepted writes that a life may store; 1 to 65,536.
    pub trail: u64,
    /// The notices that may wait for their writes to be persistent; 1 to 4,096.
    pub notices: u64,
    /// How many device calls that fail a closing save may make again; 0 to 16.
    pub retries: u64,
}

/// What a table says of the module: exactly these keys, of which `retries` may be missing, each with a number within its limits,
/// and the word of a map.
pub(crate) fn read_module(table: &Table) -> Option<(ModuleSizes, Interleaving)>
    ensures some { IfSome result (λ said. SaysModule (table_view table.now) said.0 said.1) }
    ensures none { IsNone result → SaysNoModule (table_view table.now) }
{
    let keys = if has(table, "retries") { 6 } else { 5 };
    if size(table) != keys {
        return None;
    }
    let sizes = ModuleSizes {
        depth: number_within(table, "depth", 1, 64)?,
        reads: number_within(table, "reads", 1, 64)?,
        trail: number_within(table, "trail", 1, 65_536)?,
        notices: number_within(table, "notices", 1, 4_096)?,
        retries: number_if_any(table, "retries", 16)?,
    };
    let map = Interleaving::named(word(table, "map")?)?;
    Some((sizes, map))
}
