// The module, and its calls that ask nothing of the device.
ghost use Rattle.std.specs.Prelude.{◌≡◌, ◌+◌, ◌≤◌, ◌^◌, true, false, length, nat_le, None, Some};
ghost use Rattle.save_device.specs.Device.{DeviceState};
ghost use Rattle.arm_state.specs.Modes.{is_armed, has_ended};
ghost use Rattle.channel_port.specs.Waits.{AllBelow};
ghost use Rattle.channel_port.specs.declared.stage.Stage.TheVariants.{OnMains};
ghost use Rattle.channel_set.specs.Issuing.{IssuesNone};
ghost use Rattle.channel_set.specs.Set.{AreAt, shape_of, view_of};
ghost use Rattle.nv_machine.specs.State.{Machine};
ghost use Rattle.module_saves.specs.Saving.{IsOfLines};

use crate::Front;
use arm_state::{ArmRefusal, DisarmReply, ReadRefusal, SaveState, WriteRefusal};
use channel_port::{ChannelPort, Collected, Done, Got, Ticket};
use channel_set::ChannelSet;
use energy_budget::Energy;
use line_memory::Write;
use nv_machine::{Accepted, Event, Reply};

/// A life: its front and its channels.
#[derive(Drop)]
pub struct Module<K: ChannelPort> {
    pub(crate) front: Front,
    pub(crate) channels: ChannelSet<K>,
    ghost below: { AllBelow front.accepted (view_of K.ChannelPort channels).waits.writes },
    ghost mains: { has_ended front.mode ≡ false → AreAt K.ChannelPort OnMains channels },
    ghost running: { IsOfLines (shape_of K.ChannelPort channels).lines front.saves.saving },
}

impl<K: ChannelPort> Module<K> {
    ghost use Rattle.nv_machine.specs.Refusals.{is_low, need_for, saves_of};
    ghost use Rattle.nv_machine.specs.Moves.{begun, disarming};
    ghost use Rattle.module_core.specs.Fronts.{IsUnspentWhileArmed};
    ghost use Rattle.module_core.specs.Stands.{Matches, Follows, FollowsReading, Answers, AnswersAlone, HasChannel, KeepsStored, assembly, setup_of};

    // What the gauge has to show while this many writes wait.
    pub(crate) fn need_for(&self, pending: u64) -> u64
        requires { pending ≤ 1024 }
        ensures value { result ≡ need_for (setup_of K.ChannelPort self.now) pending }
    {
        self.channels.costs().need(pending)
    }

    // What the gauge has to show while one write more waits, where its channel has room for it.
    fn need_of_one_more(&self, is_full: bool) -> u64
        ensures { is_full ≡ false → result ≡ need_for (setup_of K.ChannelPort self.now)
            (length (view_of K.ChannelPort self.now.channels).waits.writes + 1) }
    {
        if is_full {
            0
        } else {
            self.need_for(self.channels.pending() + 1)
        }
    }

    /// Accepts a write, which later reads see; while armed it is persistent at once.
    pub fn write(&mut self, write: Write) -> Result<Accepted, WriteRefusal>
        ensures answers { AnswersAlone K.ChannelPort (Event.Write write) (Reply.Write result)
            self.old self.new }
        ensures stored { KeepsStored K.ChannelPort (Reply.Write result) self.old self.new }
        ensures setup { setup_of K.ChannelPort self.new ≡ setup_of K.ChannelPort self.old }
    {
        let Some(place) = self.channels.locate(write.line) else {
            return Err(WriteRefusal::NoSuchLine);
        };
        let is_full = self.channels.is_full(place.channel);
        let need = self.need_of_one_more(is_full);
        match self.front.accept_write(is_full, need) {
            Ok(accepted) => {
                self.channels.put(accepted.number, write, place);
                Ok(accepted)
            }
            Err(refusal) => Err(refusal),
        }
    }

    /// Reads a line of the memory after all accepted writes, at once or by a ticket.
    pub fn read(&mut self, line: u64) -> Result<Got, ReadRefusal>
        ensures answers { AnswersAlone K.ChannelPort (Event.Read line) (Reply.Read result)
            self.old self.new }
        ensures stored { KeepsStored K.ChannelPort (Reply.Read result) self.old self.new }
        ensures setup { setup_of K.ChannelPort self.new ≡ setup_of K.ChannelPort self.old }
    {
        let Some(place) = self.channels.locate(line) else {
            return Err(ReadRefusal::NoSuchLine);
        };
        let is_full = self.channels.is_full_of_reads(place.channel);
        match self.front.admit_read(is_full) {
            Ok(at) => Ok(self.channels.get(line, place, at)),
            Err(refusal) => Err(refusal),
        }
    }

    /// What there is for a ticket; `Unknown` once mains were lost.
    pub fn collect(&mut self, ticket: Ticket) -> Collected
        ensures answers { AnswersAlone K.ChannelPort (Event.Collect ticket) (Reply.Collect result)
            self.old self.new }
        ensures stored { KeepsStored K.ChannelPort (Reply.Collect result) self.old self.new }
        ensures setup { setup_of K.ChannelPort self.new ≡ setup_of K.ChannelPort self.old }
    {
        self.channels.collect(ticket)
    }

    /// Issues one command of a channel, where mains are there and it has one.
    pub fn work(&mut self, channel: u64) -> Option<Done>
        requires { HasChannel K.ChannelPort self.old channel }
        ensures answers { AnswersAlone K.ChannelPort (Event.Work channel) (Reply.Work result)
            self.old self.new }
        ensures stored { KeepsStored K.ChannelPort (Reply.Work result) self.old self.new }
        ensures setup { setup_of K.ChannelPort self.new ≡ setup_of K.ChannelPort self.old }
    {
        if self.front.mode.has_ended() {
            return None;
        }
        self.channels.work(channel)
    }

    // While armed: the last reading is too low for what waits.
    fn is_low(&self) -> bool
        ensures armed { result ≡ true → is_armed self.now.front.mode ≡ true }
        ensures low { (m : Machine) → Matches K.ChannelPort self.now m
            → result ≡ is_low (setup_of K.ChannelPort self.now) m }
    {
        self.front.is_low(self.need_for(self.channels.pending()))
    }

    // Begins a save of all accepted writes, in place of one that runs.
    fn begin(&mut self)
        requires generation { self.old.front.saves.newest.generation ≤ 2 ^ 62 }
        requires armed { IsUnspentWhileArmed self.old.front }
        ensures step { Follows K.ChannelPort (λ m n. n ≡ begun m) self.old self.new }
        ensures saved { self.new.front.saved ≡ self.old.front.saved }
        ensures terms { self.new.front.terms ≡ self.old.front.terms }
        ensures issued { IssuesNone K.ChannelPort self.old.channels self.new.channels }
        ensures setup { setup_of K.ChannelPort self.new ≡ setup_of K.ChannelPort self.old }
    {
        self.front.begin_save(self.channels.lines());
        self.channels.hold(Some(self.front.accepted));
    }

    // Refuses writes until a save of all accepted ones is done.
    fn begin_disarming(&mut self)
        requires { is_armed self.old.front.mode ≡ true }
        ensures step { Follows K.ChannelPort (λ m n. n ≡ disarming m) self.old self.new }
        ensures saved { self.new.front.saved ≡ self.old.front.saved }
        ensures terms { self.new.front.terms ≡ self.old.front.terms }
        ensures issued { IssuesNone K.ChannelPort self.old.channels self.new.channels }
        ensures setup { setup_of K.ChannelPort self.new ≡ setup_of K.ChannelPort self.old }
    {
        self.front.begin_disarming(self.channels.lines());
        self.channels.hold(Some(self.front.accepted));
    }

    // Takes a reading; where it is too low while armed the disarming is begun.
    pub(crate) fn take_reading(&mut self, reading: u64) -> bool
        ensures step { FollowsReading K.ChannelPort reading result self.old self.new }
        ensures saved { self.new.front.saved ≡ self.old.front.saved }
        ensures terms { self.new.front.terms ≡ self.old.front.terms }
        ensures stays { result ≡ false → self.new.front.saves ≡ self.old.front.saves }
        ensures mode { result ≡ false → self.new.front.mode ≡ self.old.front.mode }
        ensures issued { IssuesNone K.ChannelPort self.old.channels self.new.channels }
        ensures setup { setup_of K.ChannelPort self.new ≡ setup_of K.ChannelPort self.old }
    {
        self.front.reading = reading;
        if !self.is_low() {
            return false;
        }
        self.begin_disarming();
        true
    }

    /// Reads the gauge while disarmed or armed; while armed a low reading begins the disarming. In the other modes it answers
    /// the last reading.
    pub fn sense<E: Energy>(&mut self, energy: &mut E) -> u64
        ensures answers { (device : DeviceState)
            → Answers K.ChannelPort Event.Sense (Reply.Sense result)
            (assembly self.old device (E.gauge energy.old))
            (assembly self.new device (E.gauge energy.new)) }
        ensures stored { KeepsStored K.ChannelPort (Reply.Sense result) self.old self.new }
        ensures setup { setup_of K.ChannelPort self.new ≡ setup_of K.ChannelPort self.old }
    {
        if !self.front.mode.reads_gauge() {
            return self.front.reading;
        }
        let level = energy.sense();
        // `sense` answers the level alone; the mode tells whether it turned
        let _turned = self.take_reading(level);
        level
    }

    /// Begins the disarming of an armed module.
    pub fn disarm(&mut self) -> Result<DisarmReply, ArmRefusal>
        ensures answers { AnswersAlone K.ChannelPort Event.Disarm (Reply.Disarm result)
            self.old self.new }
        ensures stored { KeepsStored K.ChannelPort (Reply.Disarm result) self.old self.new }
        ensures setup { setup_of K.ChannelPort self.new ≡ setup_of K.ChannelPort self.old }
    {
        if let Some(refusal) = self.front.mode.disarm_refusal() {
            return Err(refusal);
        }
        if !self.front.mode.is_armed() {
            return Ok(DisarmReply::AlreadyDisarmed);
        }
        self.begin_disarming();
        Ok(DisarmReply::Disarming)
    }

    /// What may stand in the way of arming and of a save.
    pub fn save_state(&self) -> SaveState
        ensures state { (m : Machine) → Matches K.ChannelPort self.now m → result ≡ saves_of m }
        ensures spent { result.is_spent ≡ nat_le (2 ^ 62) self.now.front.saves.newest.generation }
    {
        self.front.save_state()
    }

    /// Begins a save of all writes accepted so far, which holds later ones back until its last page is written. A stranded
    /// disarming is begun again.
    pub fn save_begin(&mut self) -> Result<(), ArmRefusal>
        ensures answers { AnswersAlone K.ChannelPort Event.SaveBegin (Reply.SaveBegin result)
            self.old self.new }
        ensures stored { KeepsStored K.ChannelPort (Reply.SaveBegin result) self.old self.new }
        ensures setup { setup_of K.ChannelPort self.new ≡ setup_of K.ChannelPort self.old }
    {
        if let Some(refusal) = self.front.mode.save_refusal(self.save_state()) {
            return Err(refusal);
        }
        self.begin();
        Ok(())
    }
}
