// The timing numbers and the geometry that a profile says.
ghost use Rattle.std.specs.Prelude.{IfSome, IsNone};
ghost use Rattle.toml.specs.View.{table_view};
ghost use Rattle.nv_profile.specs.Nothing.{HoldsOfNone};
ghost use Rattle.nv_profile.specs.Profile.{SaysTiming, SaysGeometry};

use crate::table::{numbers, size};
use ddr4_timing::timing::{Geometry, Timing};
use toml::Table;

/// The timing numbers that a table says: exactly these keys, each with a whole number.
pub(crate) fn read_timing(table: &Table) -> Option<Timing>
    ensures some { IfSome result (SaysTiming (table_view table.now)) }
    ensures none { IsNone result → HoldsOfNone (SaysTiming (table_view table.now)) }
{
    if size(table) != 18 {
        return None;
    }
    let [t_rcd, t_rp, t_ras, cl, cwl, t_ccd_s] = numbers(
        table,
        ["tRCD", "tRP", "tRAS", "CL", "CWL", "tCCD_S"],
    )?;
    let [t_ccd_l, t_rrd_s, t_rrd_l, t_faw, t_wr, t_wtr_s] = numbers(
        table,
        ["tCCD_L", "tRRD_S", "tRRD_L", "tFAW", "tWR", "tWTR_S"],
    )?;
    let [t_wtr_l, t_rtp, t_rtw, t_cs, t_rfc, t_refi] = numbers(
        table,
        ["tWTR_L", "tRTP", "tRTW", "tCS", "tRFC", "tREFI"],
    )?;
    Some(Timing {
        t_rcd,
        t_rp,
        t_ras,
        cl,
        cwl,
        t_ccd_s,
        t_ccd_l,
        t_rrd_s,
        t_rrd_l,
        t_faw,
        t_wr,
        t_wtr_s,
        t_wtr_l,
        t_rtp,
        t_rtw,
        t_cs,
        t_rfc,
        t_refi,
    })
}

/// The geometry that a table says: exactly these keys, each with a whole number.
pub(crate) fn read_geometry(table: &Table) -> Option<Geometry>
    ensures some { IfSome result (SaysGeometry (table_view table.now)) }
    ensures none { IsNone result → HoldsOfNone (SaysGeometry (table_view table.now)) }
{
    if size(table) != 6 {
        return None;
    }
    let [channels, ranks, groups, banks, rows, columns] = numbers(
        table,
        ["channels", "ranks", "groups", "banks", "rows", "columns"],
    )?;
    Some(Geometry {
        channels,
        ranks,
        groups,
        banks,
        rows,
        columns,
    })
}
