// What makes the modules of a profile.
ghost use Rattle.std.specs.Prelude.{◌≡◌};
ghost use Rattle.interleave_map.specs.declared.ready.Interleaving.{Interleaving};
ghost use Rattle.nv_session.specs.Living.{IsShapeFor};

use ddr4_module::{Sizes, open};
use ddr4_port::Ddr4Port;
use energy_budget::Costs;
use interleave_map::line_map::LineMap;
use interleave_map::{Interleaving, ReadyMap};
use module_core::Module;
use nv_profile::Profile;
use nv_session::Wires;
use slot_store::Restored;
use std::alloc::{AllocError, Global};
use std::marker::Model;

/// Makes the modules of a profile over the profile's own map.
#[derive(Drop)]
pub struct ProfileWires<'m> {
    map: &'m ReadyMap,
    profile: Profile,
    costs: Costs,
}

impl<'m> Model for ProfileWires<'m> {
    ghost use Rattle.std.specs.Prelude.{◌≡◌};
    ghost use Rattle.energy_budget.specs.Costs.{AreReckonedFor};
    ghost use Rattle.panguhero_c.specs.Wiring.{WiredProfile};

    ghost Value = { WiredProfile };

    ghost view = { λ w. record { map = w.map.now; profile = w.profile; costs = w.costs } };

    ghost invariant = { λ w. AreReckonedFor w.profile.checked w.costs
        × (w.map.now.checked.geometry ≡ w.profile.checked.geometry) };
}

impl<'m> ProfileWires<'m> {
    ghost use Rattle.panguhero_c.specs.Wiring.{wired_shape};

    /// Over a map of the profile's geometry.
    pub(crate) fn new(map: &'m ReadyMap, profile: &Profile) -> ProfileWires<'m>
        requires { map.now.checked.geometry ≡ profile.now.checked.geometry }
        ensures fits { (interleaving : Interleaving)
            → IsShapeFor profile.now (wired_shape result interleaving) }
        ensures profile { result.profile ≡ profile.now }
        ensures map { result.map ≡ map.now }
    {
        map.interleaves();
        ProfileWires {
            map,
            profile: *profile,
            costs: Costs::of(&profile.checked, &profile.costs).with_retries(profile.sizes.retries),
        }
    }
}

impl<'m> Wires<Ddr4Port<'m, ReadyMap>> for ProfileWires<'m> {
    ghost use Rattle.panguhero_c.specs.Wiring.{wired_shape};

    ghost shape = { wired_shape };

    ghost checked = { λ w. w.profile.checked };

    fn open(
        &self,
        alloc: Global,
        _map: Interleaving,
        restored: Restored,
        trail: u64,
    ) -> Result<Module<Ddr4Port<'m, ReadyMap>>, (Restored, AllocError)> {
        let sizes = Sizes {
            depth: self.profile.sizes.depth,
            reads: self.profile.sizes.reads,
            trail,
            keeps_commands: false,
        };
        open(
            alloc,
            restored,
            self.map,
            &self.profile.checked,
            self.costs,
            sizes,
        )
    }
}
