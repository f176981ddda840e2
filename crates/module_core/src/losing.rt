// The loss of mains.
ghost use Rattle.std.specs.Prelude.{◌≡◌, ◌≤◌, ◌^◌, [], false, length, true, None, Ok, IfErr, IfNone, IfSome, OnOk};
ghost use Rattle.energy_budget.specs.declared.costs.CostNumbers.{CostNumbers};
ghost use Rattle.channel_set.specs.Carrying.{KeepsAll};
ghost use Rattle.channel_set.specs.Draining.{cost_of_drains};
ghost use Rattle.arm_state.specs.Modes.{has_ended};
ghost use Rattle.save_device.specs.Device.{DeviceState};
ghost use Rattle.channel_set.specs.Set.{AreAt, shape_of, view_of};
ghost use Rattle.channel_port.specs.declared.stage.Stage.TheVariants.{OnBackup, OnMains};
ghost use Rattle.channel_port.specs.Draining.{at_once, in_turn};

use crate::Module;
use arm_state::{Loss, Mode};
use channel_port::ChannelPort;
use energy_budget::{Dark, Energy};
use nv_machine::{Event, Reply};
use save_device::SaveDevice;
use slot_store::BrokenOff;
use std::thread::Threads;
use worker_turns::Gate;

impl<K: ChannelPort> Module<K> {
    ghost use Rattle.module_saves.specs.Saves.{BeginsSave};
    ghost use Rattle.module_core.specs.Stands.{EndsMains};

    // Ends all work on mains; a save that runs is given up.
    fn end_mains(&mut self)
        requires { AreAt K.ChannelPort OnMains self.old.channels }
        ensures ends { EndsMains K.ChannelPort self.old.front.reading self.old self.new }
        ensures none { self.new.front.saves.saving ≡ None }
        ensures newest { self.new.front.saves.newest ≡ self.old.front.saves.newest }
        ensures closed { self.new.front.saves.closed ≡ self.old.front.saves.closed }
        ensures unsettled { self.new.front.saves.unsettled ≡ self.old.front.saves.unsettled }
    {
        self.front.mode = Mode::Closing;
        self.front.saves.saving = None;
        self.channels.hold(None);
        self.channels.lose_mains();
    }

    // The same after a reading, and begins the save of all accepted writes.
    fn begin_closing(&mut self, reading: u64)
        requires generation { self.old.front.saves.newest.generation ≤ 2 ^ 62 }
        requires mains { AreAt K.ChannelPort OnMains self.old.channels }
        ensures ends { EndsMains K.ChannelPort reading self.old self.new }
        ensures begins { BeginsSave self.old.front.saves self.old.front.accepted false
            (shape_of K.ChannelPort self.old.channels).lines self.new.front.saves }
        ensures cost { (numbers : CostNumbers)
            → cost_of_drains K.ChannelPort self.new.channels numbers
            ≡ cost_of_drains K.ChannelPort self.old.channels numbers }
        ensures backup { AreAt K.ChannelPort OnBackup self.new.channels }
    {
        self.front.reading = reading;
        self.front.mode = Mode::Closing;
        self.front
            .saves
            .begin(self.front.accepted, false, self.channels.lines());
        self.channels.hold(None);
        self.channels.lose_mains();
    }
}

impl<K: ChannelPort> Module<K> {
    ghost use Rattle.module_core.specs.Drained.{ClosesDrained};
    ghost use Rattle.module_core.specs.Draining.{WhereDrained};
    ghost use Rattle.module_core.specs.Losing.{BeginsLoss, ConcludesLoss, LosesAlone};
    ghost use Rattle.slot_store.specs.declared.source.BrokenOff.TheVariants as broken;
    ghost use Rattle.module_core.specs.Fronts.{SameButSaves};
    ghost use Rattle.module_core.specs.Stands.{CountsSaved, HasDevice, saved_after, setup_of, assembly};

    // The beginning of a loss of mains: what it comes to where nothing is to be saved; else a save of all accepted writes is begun.
    fn begin_loss<E: Energy>(&mut self, energy: &mut E) -> Option<Loss>
        ensures saved { self.new.front.saved ≡ self.old.front.saved }
        ensures terms { self.new.front.terms ≡ self.old.front.terms }
        ensures unsaved { IfSome result (λ lost. saved_after (Reply.Lose lost) self.old.front.saved
            ≡ self.old.front.saved) }
        ensures undrained { IfSome result (λ lost. WhereDrained lost ⊥) }
        ensures over { IfSome result (λ lost. LosesAlone K.ChannelPort lost
            self.old (E.gauge energy.old) self.new (E.gauge energy.new)) }
        ensures begins { IfNone result ((device : DeviceState) → BeginsLoss K.ChannelPort
            (assembly self.old device (E.gauge energy.old))
            (assembly self.new device (E.gauge energy.new))) }
        ensures ended { IfNone result (has_ended self.new.front.mode ≡ true) }
        ensures backup { IfNone result (AreAt K.ChannelPort OnBackup self.new.channels) }
        ensures lost { IfNone result ((view_of K.ChannelPort self.new.channels).waits.reads ≡ []) }
        ensures setup { setup_of K.ChannelPort self.new ≡ setup_of K.ChannelPort self.old }
    {
        if self.front.mode.has_ended() {
            return Some(Loss::Closed);
        }
        if !self.front.mode.is_backed() {
            self.end_mains();
            return Some(Loss::Unsaved);
        }
        self.begin_closing(energy.tick());
        None
    }

    // Makes the save that was begun, or gives it up where a payment for the drains was refused.
    fn close<D: SaveDevice, E: Energy>(
        &mut self,
        drained: Result<(), Dark>,
        device: &mut D,
        energy: &mut E,
    ) -> Result<(), BrokenOff>
        requires ended { has_ended self.old.front.mode ≡ true }
        requires size { HasDevice K.ChannelPort self.old (D.state device.old) }
        ensures closes { ClosesDrained drained result
            (assembly self.old (D.state device.old) (E.gauge energy.old))
            (assembly self.new (D.state device.new) (E.gauge energy.new)) }
        ensures paid { OnOk result (drained ≡ Ok tt) }
        ensures fault { IfErr result (λ cause. cause ≡ broken.Fault → drained ≡ Ok tt) }
        ensures channels { self.new.channels ≡ self.old.channels }
        ensures none { self.new.front.saves.saving ≡ None }
        ensures same { SameButSaves self.old.front self.new.front }
        ensures keeps { KeepsAll K.ChannelPort self.old.channels self.new.channels }
        ensures setup { setup_of K.ChannelPort self.new ≡ setup_of K.ChannelPort self.old }
        ensures size { HasDevice K.ChannelPort self.new (D.state device.new) }
    {
        if drained.is_err() {
            self.front.saves.saving = None;
            return Err(BrokenOff::Refused);
        }
        self.front.saves.finish(&self.channels, device, energy)
    }

    // What a loss that was begun comes to, behind the drains of its channels.
    fn conclude<D: SaveDevice, E: Energy>(
        &mut self,
        drained: Result<(), Dark>,
        device: &mut D,
        energy: &mut E,
    ) -> Loss
        requires ended { has_ended self.old.front.mode ≡ true }
        requires size { HasDevice K.ChannelPort self.old (D.state device.old) }
        ensures concludes { ConcludesLoss K.ChannelPort drained result
            (assembly self.old (D.state device.old) (E.gauge energy.old))
            (assembly self.new (D.state device.new) (E.gauge energy.new)) }
        ensures paid { WhereDrained result (drained ≡ Ok tt) }
        ensures channels { self.new.channels ≡ self.old.channels }
        ensures saved { CountsSaved (Reply.Lose result) self.old.front self.new.front }
        ensures terms { self.new.front.terms ≡ self.old.front.terms }
        ensures size { HasDevice K.ChannelPort self.new (D.state device.new) }
    {
        match self.close(drained, device, energy) {
            Ok(()) => {
                self.front.mode = Mode::Saved;
                self.front.saved = self.front.accepted;
                Loss::Saved {
                    generation: self.front.saves.newest.generation,
                    count: self.front.accepted,
                }
            }
            Err(BrokenOff::Refused) => Loss::Dark,
            Err(BrokenOff::Fault) => Loss::Fault,
        }
    }
}

impl<K: ChannelPort> Module<K> {
    ghost use Rattle.module_core.specs.Covering.{IsCovered};
    ghost use Rattle.module_core.specs.Draining.{AreDrainedFrom, WhereDrained};
    ghost use Rattle.module_core.specs.HonestCalls.{SavesWhereHonest};
    ghost use Rattle.module_core.specs.Losing.{LosesBy};
    ghost use Rattle.module_core.specs.Stands.{Answers, HasDevice, KeepsStored, setup_of, assembly};
    ghost use Rattle.worker_turns.specs.Waiting.{AreAwaited};

    /// Mains were lost (CSAVE in JESD245). Where acknowledged writes are to be saved, the channels are drained one after another
    /// and all accepted writes are saved, each action paid for first; a payment that is refused or a fault of the device breaks
    /// it off. Disarmed, nothing is written. Where all is saved, the energy that is kept for a closing save is no less than what
    /// the commands and the clocks of its drains and the steps of its save cost. Behind a loss whose drains were paid for each
    /// channel is as its own drain leaves it, its list, its stage and its array.
    ///
    /// **With a gauge that has been honest since the life began, and a device that was spared, which has failed in this loss no
    /// more often than its calls may be made again, the answer is `Saved` with all accepted writes, and a restore finds them all,
    /// complete. What failed before, in ordinary saves and in arm calls, doesn't matter.**
    pub fn power_loss<D: SaveDevice, E: Energy>(&mut self, device: &mut D, energy: &mut E) -> Loss
        requires size { HasDevice K.ChannelPort self.old (D.state device.old) }
        ensures answers { Answers K.ChannelPort Event.Lose (Reply.Lose result)
            (assembly self.old (D.state device.old) (E.gauge energy.old))
            (assembly self.new (D.state device.new) (E.gauge energy.new)) }
        ensures loses { LosesBy K.ChannelPort in_turn result
            (assembly self.old (D.state device.old) (E.gauge energy.old))
            (assembly self.new (D.state device.new) (E.gauge energy.new)) }
        ensures covered { IsCovered K.ChannelPort result self.old.channels }
        ensures drained { WhereDrained result
            (AreDrainedFrom K.ChannelPort self.old.channels self.new.channels) }
        ensures honest { SavesWhereHonest K.ChannelPort result
            (assembly self.old (D.state device.old) (E.gauge energy.old))
            (assembly self.new (D.state device.new) (E.gauge energy.new)) }
        ensures stored { KeepsStored K.ChannelPort (Reply.Lose result) self.old self.new }
        ensures setup { setup_of K.ChannelPort self.new ≡ setup_of K.ChannelPort self.old }
        ensures size { HasDevice K.ChannelPort self.new (D.state device.new) }
    {
        if let Some(lost) = self.begin_loss(energy) {
            return lost;
        }
        let drained = self.channels.drain(energy);
        self.conclude(drained, device, energy)
    }

    /// Mains were lost, as at `power_loss`. All drains are paid for at once before the first of them, and then the channels are
    /// drained at once, each in a thread of its own where one is to be had; the steps of the save are paid for one by one. The
    /// gate is asked before each drain, by the channel's number, and again while it says Hold; Stop counts as Go. Where the
    /// payment of the drains is refused no command is issued. Each channel is left as at `power_loss`.
    ///
    /// **An honest gauge and a device that was spared are enough for the same as at `power_loss`.**
    pub fn power_loss_with<D, E, G, R>(
        &mut self,
        rt: &R,
        device: &mut D,
        energy: &mut E,
        gate: &G,
    ) -> Loss
    where
        K: Send,
        D: SaveDevice,
        E: Energy,
        G: Gate + Sync,
        R: Threads + Sync,
        requires size { HasDevice K.ChannelPort self.old (D.state device.old) }
        ensures answers { Answers K.ChannelPort Event.Lose (Reply.Lose result)
            (assembly self.old (D.state device.old) (E.gauge energy.old))
            (assembly self.new (D.state device.new) (E.gauge energy.new)) }
        ensures loses { LosesBy K.ChannelPort at_once result
            (assembly self.old (D.state device.old) (E.gauge energy.old))
            (assembly self.new (D.state device.new) (E.gauge energy.new)) }
        ensures covered { IsCovered K.ChannelPort result self.old.channels }
        ensures drained { WhereDrained result
            (AreDrainedFrom K.ChannelPort self.old.channels self.new.channels) }
        ensures asked { WhereDrained result
            (AreAwaited G.Gate gate.now 0 (length self.old.channels.ports.items)) }
        ensures honest { SavesWhereHonest K.ChannelPort result
            (assembly self.old (D.state device.old) (E.gauge energy.old))
            (assembly self.new (D.state device.new) (E.gauge energy.new)) }
        ensures stored { KeepsStored K.ChannelPort (Reply.Lose result) self.old self.new }
        ensures setup { setup_of K.ChannelPort self.new ≡ setup_of K.ChannelPort self.old }
        ensures size { HasDevice K.ChannelPort self.new (D.state device.new) }
    {
        if let Some(lost) = self.begin_loss(energy) {
            return lost;
        }
        let drained = self.channels.drain_at_once(rt, energy, gate);
        self.conclude(drained, device, energy)
    }
}
