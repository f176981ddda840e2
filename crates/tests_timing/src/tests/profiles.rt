// Profiles that the check takes and refuses, and places of a geometry.
use crate::tests::check::same;
use ddr4_timing::place::Place;
use ddr4_timing::profiles::{SMALL, TINY};
use ddr4_timing::timing::{Geometry, ProfileError, Timing};
use std::process::Abort;

const LONG: Timing = Timing {
    t_refi: 1849,
    ..TINY
};

const FITS: Timing = Timing {
    t_refi: 1850,
    ..TINY
};

const WIDE: Timing = Timing { t_faw: 56, ..TINY };

const NARROW: Timing = Timing { t_faw: 55, ..TINY };

const NONE: Timing = Timing { t_rfc: 0, ..TINY };

const HUGE: Timing = Timing {
    t_rfc: u64::MAX,
    ..TINY
};

const BOTH: Timing = Timing {
    t_faw: 56,
    t_refi: 1849,
    ..TINY
};

const FEW: Geometry = Geometry {
    rows: 1,
    columns: 2,
    ..SMALL
};

const MANY: Geometry = Geometry {
    rows: 1 << 63,
    columns: 1 << 63,
    ..SMALL
};

// The check of a profile answers so.
fn is<R: Abort>(rt: &R, timing: &Timing, geometry: &Geometry, refused: Option<ProfileError>) {
    same(rt, timing.check(geometry).err(), refused);
}

#[test]
fn checks_profiles(rt: HostRuntime) {
    is(&rt, &LONG, &SMALL, Some(ProfileError::EntryTooLong));
    is(&rt, &FITS, &SMALL, None);
    is(&rt, &WIDE, &SMALL, Some(ProfileError::FawTooLong));
    is(&rt, &NARROW, &SMALL, None);
    is(&rt, &NONE, &SMALL, Some(ProfileError::Overflow));
    is(&rt, &HUGE, &SMALL, Some(ProfileError::Overflow));
    is(&rt, &BOTH, &SMALL, Some(ProfileError::EntryTooLong));
}

#[test]
fn checks_geometries(rt: HostRuntime) {
    is(&rt, &TINY, &FEW, Some(ProfileError::Geometry));
    is(&rt, &NONE, &FEW, Some(ProfileError::Overflow));
    is(&rt, &LONG, &MANY, Some(ProfileError::Geometry));
}

// The most that commands alone may have.
const DEVICES: Geometry = Geometry {
    channels: 8,
    ranks: 8,
    groups: 4,
    banks: 4,
    rows: 1 << 18,
    columns: 1 << 10,
};

// The check for commands alone answers so.
fn of_commands<R: Abort>(
    rt: &R,
    timing: &Timing,
    geometry: &Geometry,
    refused: Option<ProfileError>,
) {
    same(rt, timing.check_commands(geometry).err(), refused);
}

#[test]
fn checks_geometries_of_commands(rt: HostRuntime) {
    of_commands(&rt, &TINY, &DEVICES, None);
    of_commands(&rt, &BOTH, &DEVICES, None);
    of_commands(&rt, &HUGE, &MANY, Some(ProfileError::Overflow));
    for past in [
        Geometry {
            channels: 9,
            ..DEVICES
        },
        Geometry {
            ranks: 9,
            ..DEVICES
        },
        Geometry {
            groups: 3,
            ..DEVICES
        },
        Geometry {
            banks: 2,
            ..DEVICES
        },
        Geometry {
            rows: (1 << 18) + 1,
            ..DEVICES
        },
        Geometry {
            columns: (1 << 10) + 1,
            ..DEVICES
        },
        Geometry {
            channels: 0,
            ..DEVICES
        },
        Geometry { rows: 0, ..DEVICES },
    ] {
        of_commands(&rt, &TINY, &past, Some(ProfileError::Geometry));
    }
}

const LAST: Place = Place {
    channel: 1,
    rank: 0,
    group: 1,
    bank: 3,
    row: 1,
    column: 3,
};

const PAST_RANKS: Place = Place { rank: 1, ..LAST };

const PAST_COLUMNS: Place = Place { column: 4, ..LAST };

#[test]
fn places_of_a_geometry(rt: HostRuntime) {
    same(&rt, LAST.lies_in(&SMALL), true);
    same(&rt, PAST_RANKS.lies_in(&SMALL), false);
    same(&rt, PAST_COLUMNS.lies_in(&SMALL), false);
}
