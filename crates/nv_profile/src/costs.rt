// The costs that a profile says.
ghost use Rattle.std.specs.Prelude.{IfSome, IsNone};
ghost use Rattle.toml.specs.View.{table_view};
ghost use Rattle.nv_profile.specs.Nothing.{HoldsOfNone};
ghost use Rattle.nv_profile.specs.Tables.{HasNumber, HasNoNumber, HasNumberIfAny};
ghost use Rattle.nv_profile.specs.Profile.{SaysCosts};

use crate::table::{has, number_if_any, number_within, size};
use energy_budget::CostNumbers;
use toml::Table;

/// The most that a cost may be, in units of energy.
const MOST_COST: u64 = 1_000_000;

/// The cost under a key.
fn cost(table: &Table, key: &str) -> Option<u64>
    ensures some { IfSome result (HasNumber key.now (table_view table.now) 0 MOST_COST) }
    ensures none { IsNone result → HasNoNumber key.now (table_view table.now) 0 MOST_COST }
{
    number_within(table, key, 0, MOST_COST)
}

/// The cost under a key that may be missing, and is 0 then.
fn cost_if_any(table: &Table, key: &str) -> Option<u64>
    ensures some { IfSome result (HasNumberIfAny key.now (table_view table.now) MOST_COST) }
    ensures none { IsNone result
        → HoldsOfNone (HasNumberIfAny key.now (table_view table.now) MOST_COST) }
{
    number_if_any(table, key, MOST_COST)
}

/// The costs that a table says: exactly these keys, of which `e_digest` may be missing, each with a number within its limits.
pub(crate) fn read_costs(table: &Table) -> Option<CostNumbers>
    ensures some { IfSome result (SaysCosts (table_view table.now)) }
    ensures none { IsNone result → HoldsOfNone (SaysCosts (table_view table.now)) }
{
    let keys = if has(table, "e_digest") { 11 } else { 10 };
    if size(table) != keys {
        return None;
    }
    Some(CostNumbers {
        e_act: cost(table, "e_act")?,
        e_col: cost(table, "e_col")?,
        e_pre: cost(table, "e_pre")?,
        e_ref: cost(table, "e_ref")?,
        e_sre: cost(table, "e_sre")?,
        e_clk: cost(table, "e_clk")?,
        e_mark: cost(table, "e_mark")?,
        e_sync: cost(table, "e_sync")?,
        e_page: cost(table, "e_page")?,
        e_digest: cost_if_any(table, "e_digest")?,
        leak: cost(table, "leak")?,
    })
}
