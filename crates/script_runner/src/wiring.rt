// The modules of a profile, over either map.
ghost use Rattle.std.specs.Prelude.{◌≡◌};
ghost use Rattle.interleave_map.specs.declared.ready.Interleaving.{Interleaving};
ghost use Rattle.nv_session.specs.Living.{IsShapeFor};

mod copying;

use ddr4_module::{Sizes, open};
use ddr4_port::Ddr4Port;
use energy_budget::Costs;
use interleave_map::Interleaving;
use interleave_map::line_map::LineMap;
use module_core::Module;
use nv_profile::Profile;
use nv_session::Wires;
use slot_store::Restored;
use std::alloc::{AllocError, Global};
use std::marker::Model;

/// Makes the modules of a profile over either of two lawful maps of its geometry.
#[derive(Drop)]
pub struct Wiring<'m, M: LineMap> {
    lines_map: &'m M,
    xor_map: &'m M,
    profile: Profile,
    costs: Costs,
    keeps_commands: bool,
}

impl<'m, M: LineMap> Model for Wiring<'m, M> {
    ghost use Rattle.energy_budget.specs.Costs.{AreReckonedFor};
    ghost use Rattle.script_runner.specs.Wiring.{IsMapOf, WiredMaps};

    ghost Value = { WiredMaps M };

    ghost view = { λ w. record {
      lines_map = w.lines_map.now;
      xor_map = w.xor_map.now;
      profile = w.profile;
      costs = w.costs;
    } };

    ghost invariant = { λ w. AreReckonedFor w.profile.checked w.costs
        × IsMapOf M.LineMap w.profile.checked.geometry w.lines_map.now
        × IsMapOf M.LineMap w.profile.checked.geometry w.xor_map.now };
}

impl<'m, M: LineMap> Wiring<'m, M> {
    ghost use Rattle.script_runner.specs.Wiring.{IsMapOf, map_in, wired_shape};

    /// Over two lawful maps of the profile's geometry.
    pub fn new(lines_map: &'m M, xor_map: &'m M, profile: &Profile) -> Wiring<'m, M>
        requires lines_map { IsMapOf M.LineMap profile.now.checked.geometry lines_map.now }
        requires xor_map { IsMapOf M.LineMap profile.now.checked.geometry xor_map.now }
        ensures fits { (map : Interleaving)
            → IsShapeFor profile.now (wired_shape M.LineMap result map) }
        ensures profile { result.profile ≡ profile.now }
        ensures costs { result.costs.numbers ≡ profile.now.costs }
        ensures retries { result.costs.retries ≡ profile.now.sizes.retries }
        ensures lines_map { result.lines_map ≡ lines_map.now }
        ensures xor_map { result.xor_map ≡ xor_map.now }
    {
        lines_map.interleaves();
        xor_map.interleaves();
        Wiring {
            lines_map,
            xor_map,
            profile: *profile,
            costs: Costs::of(&profile.checked, &profile.costs).with_retries(profile.sizes.retries),
            keeps_commands: false,
        }
    }

    /// The same, for modules whose channels keep their commands, or don't.
    pub fn with_commands(self, keeps_commands: bool) -> Wiring<'m, M>
        ensures { result ≡ self.entry }
    {
        Wiring {
            keeps_commands,
            ..self
        }
    }

    // The map of an interleaving.
    fn map_of(&self, interleaving: Interleaving) -> &'m M
        ensures lawful { IsMapOf M.LineMap self.now.profile.checked.geometry result.now }
        ensures is { result.now ≡ map_in self.now interleaving }
    {
        match interleaving {
            Interleaving::Lines => self.lines_map,
            Interleaving::Xor => self.xor_map,
        }
    }
}

impl<'m, M: LineMap> Wires<Ddr4Port<'m, M>> for Wiring<'m, M> {
    ghost use Rattle.script_runner.specs.Wiring.{wired_shape};

    ghost shape = { wired_shape M.LineMap };

    ghost checked = { λ w. w.profile.checked };

    fn open(
        &self,
        alloc: Global,
        map: Interleaving,
        restored: Restored,
        trail: u64,
    ) -> Result<Module<Ddr4Port<'m, M>>, (Restored, AllocError)> {
        let sizes = Sizes {
            depth: self.profile.sizes.depth,
            reads: self.profile.sizes.reads,
            trail,
            keeps_commands: self.keeps_commands,
        };
        let map = self.map_of(map);
        open(
            alloc,
            restored,
            map,
            &self.profile.checked,
            self.costs,
            sizes,
        )
    }
}
