// Profiles that programs and tests share.
use crate::timing::{Geometry, Timing};

/// The timing numbers of the word `tiny`.
pub const TINY: Timing = Timing {
    t_rcd: 16,
    t_rp: 16,
    t_ras: 39,
    cl: 16,
    cwl: 12,
    t_ccd_s: 4,
    t_ccd_l: 6,
    t_rrd_s: 4,
    t_rrd_l: 6,
    t_faw: 26,
    t_wr: 18,
    t_wtr_s: 3,
    t_wtr_l: 9,
    t_rtp: 9,
    t_rtw: 10,
    t_cs: 2,
    t_rfc: 420,
    t_refi: 9360,
};

/// An interval as short as the checks let it be with four ranks: an entry takes 44 clocks and a close step 40, so it is
/// 2 * (44 + 40) + 4 * 4.
pub const TIGHT: Timing = Timing {
    t_rcd: 3,
    t_rp: 3,
    t_ras: 5,
    cl: 3,
    cwl: 2,
    t_ccd_s: 2,
    t_ccd_l: 3,
    t_rrd_s: 2,
    t_rrd_l: 3,
    t_faw: 8,
    t_wr: 4,
    t_wtr_s: 1,
    t_wtr_l: 2,
    t_rtp: 30,
    t_rtw: 4,
    t_cs: 1,
    t_rfc: 7,
    t_refi: 184,
};

/// Two channels of one rank, of 64 lines each.
pub const SMALL: Geometry = Geometry {
    channels: 2,
    ranks: 1,
    groups: 2,
    banks: 4,
    rows: 2,
    columns: 4,
};

/// One channel of four ranks, of few short rows.
pub const SHORT_ROWS: Geometry = Geometry {
    channels: 1,
    ranks: 4,
    groups: 2,
    banks: 4,
    rows: 16,
    columns: 4,
};

/// One channel of four ranks, of 65,536 lines.
pub const LARGEST: Geometry = Geometry {
    channels: 1,
    ranks: 4,
    groups: 4,
    banks: 4,
    rows: 32,
    columns: 32,
};

/// Eight channels of four ranks, of 65,536 lines in fewer rows than channels.
pub const WIDEST: Geometry = Geometry {
    channels: 8,
    ranks: 4,
    groups: 4,
    banks: 4,
    rows: 2,
    columns: 64,
};
