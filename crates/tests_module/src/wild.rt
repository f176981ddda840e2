// Lives on a device that fails at will and a gauge that answers at will, stopped and restored. What each replies and leaves is
// worked out by hand: a restore of a formatted device makes five calls of it, arming two, and a closing save six at least.
ghost use Rattle.std.specs.Prelude.{◌≤◌};

use crate::cases::tiny;
use crate::check::same;
use crate::load::{Image, restores_to};
use crate::runs::LOSS;
use arm_state::{ArmReply, Loss};
use ddr4_boards::formatted;
use ddr4_module::{Sizes, wild_life};
use energy_budget::{Costs, Wild};
use interleave_map::{Interleaving, ReadyMap};
use nv_machine::{Accepted, Reply};
use nv_profile::Profile;
use save_device::{Fuse, OneFault, Pick};
use slot_store::Verdict;
use std::alloc::Global;
use std::process::Abort;

/// What a device passes, and what its gauge has.
#[derive(Drop)]
struct Parts {
    passes: u64,
    words: Vec<u64>,
}

/// The image that was there before.
const OLD: Image = Image {
    generation: 1,
    count: 0,
    verdict: Verdict::PossibleLoss { after: 0 },
    first: 0,
    last: 0,
};

fn sizes_of(profile: &Profile) -> Sizes
    ensures depth { (1 ≤ result.depth) × (result.depth ≤ 64) }
    ensures reads { result.reads ≤ 64 }
{
    Sizes {
        depth: profile.sizes.depth,
        reads: profile.sizes.reads,
        trail: profile.sizes.trail,
        keeps_commands: false,
    }
}

// A module that arms, accepts two writes and loses its mains ends so, with a gauge that first shows this, and a stop leaves this.
fn lives<R: Abort>(rt: &R, alloc: Global, parts: Parts, shown: u64, loss: Loss, image: Image) {
    let profile = tiny(rt, alloc);
    let map = ReadyMap {
        interleaving: Interleaving::Lines,
        checked: profile.checked,
    };
    let Ok(device) = formatted(alloc, &profile) else {
        panic!(*rt; "a device");
    };
    let mut frail = OneFault::new(Fuse::new(device, parts.passes), 1_000);
    let replies = wild_life(
        alloc,
        &map,
        &profile.checked,
        Costs::of(&profile.checked, &profile.costs),
        sizes_of(&profile),
        &LOSS,
        &mut frail,
        &mut Wild::new(parts.words),
    );
    let wanted = [
        Reply::Sense(shown),
        Reply::Arm(Ok(ArmReply::Armed)),
        Reply::Write(Ok(Accepted { number: 0, mark: 1 })),
        Reply::Write(Ok(Accepted { number: 1, mark: 2 })),
        Reply::Lose(loss),
    ];
    same(rt, replies.expect(rt, "a life").as_slice(), &wanted);
    let mut device = frail.device.device;
    device.stop(Pick::Torn(0xa5));
    restores_to(rt, alloc, &mut device, image);
}

// A gauge that always suffices.
fn plenty<R: Abort>(rt: &R, alloc: Global) -> Vec<u64> {
    Vec::from_elem(alloc, u64::MAX, 4_096).expect(rt, "memory")
}

#[test]
fn a_device_that_fails_within_the_closing_save(rt: HostRuntime) {
    let parts = Parts {
        passes: 10,
        words: plenty(&rt, rt.alloc()),
    };
    lives(&rt, rt.alloc(), parts, u64::MAX, Loss::Fault, OLD);
}

#[test]
fn a_gauge_that_is_dark_at_the_first_payment(rt: HostRuntime) {
    let parts = Parts {
        passes: u64::MAX,
        words: [9_000, 8_000].to_vec(rt.alloc()).expect(&rt, "memory"),
    };
    lives(&rt, rt.alloc(), parts, 9_000, Loss::Dark, OLD);
}

#[test]
fn a_gauge_that_suffices(rt: HostRuntime) {
    let parts = Parts {
        passes: u64::MAX,
        words: plenty(&rt, rt.alloc()),
    };
    let saved = Loss::Saved {
        generation: 2,
        count: 2,
    };
    let image = Image {
        generation: 2,
        count: 2,
        verdict: Verdict::Complete,
        first: 0x11,
        last: 0x22,
    };
    lives(&rt, rt.alloc(), parts, u64::MAX, saved, image);
}
