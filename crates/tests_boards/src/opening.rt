// The opening of a module on a device that passes some calls, and then fails.
use crate::check::{AMPLE, fresh, tiny};
use ddr4_boards::open;
use energy_budget::Meter;
use interleave_map::{Interleaving, ReadyMap};
use save_device::Fuse;
use slot_store::RestoreError;

/// The calls of a restore of a formatted device of the small profile: a sync, and two headers and two pages that are read.
const CALLS: u64 = 5;

#[test]
fn a_module_is_opened_by_the_calls_of_one_restore(rt: HostRuntime) {
    let alloc = rt.alloc();
    let profile = tiny(&rt, alloc);
    let map = ReadyMap {
        interleaving: Interleaving::Lines,
        checked: profile.checked,
    };
    for calls in 0..=CALLS {
        let device = Fuse::new(fresh(&rt, alloc, &profile), calls);
        let refused = match open(&rt, alloc, &map, &profile, device, Meter::with(AMPLE, 1), 1) {
            Ok(_) => None,
            Err(none) => Some(none.why),
        };
        let wanted = if calls < CALLS {
            Some(RestoreError::Device)
        } else {
            None
        };
        assert_eq!(rt; refused, wanted, "behind {calls} calls");
    }
}
