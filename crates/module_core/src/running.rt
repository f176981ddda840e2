// Lists of events.
ghost use Rattle.std.specs.Prelude.{◌≡◌, All, IfOk, IfErr};
ghost use Rattle.nv_machine.specs.State.{Machine};

use crate::Module;
use channel_port::ChannelPort;
use energy_budget::Energy;
use nv_machine::{Event, Reply};
use save_device::SaveDevice;
use std::alloc::{AllocError, Global};

impl<K: ChannelPort> Module<K> {
    ghost use Rattle.module_core.specs.Cutting.{AnswersCut};
    ghost use Rattle.module_core.specs.HonestCalls.{StaysWhereHonest};
    ghost use Rattle.module_core.specs.Stands.{Answers, AnswersAll, HasDevice, IsForChannels, setup_of, assembly};

    // Answers one event.
    fn apply<D: SaveDevice, E: Energy>(
        &mut self,
        event: Event,
        device: &mut D,
        energy: &mut E,
    ) -> Reply
        requires channel { IsForChannels K.ChannelPort self.old event }
        requires size { HasDevice K.ChannelPort self.old (D.state device.old) }
        ensures answers { Answers K.ChannelPort event result
            (assembly self.old (D.state device.old) (E.gauge energy.old))
            (assembly self.new (D.state device.new) (E.gauge energy.new)) }
        ensures setup { setup_of K.ChannelPort self.new ≡ setup_of K.ChannelPort self.old }
        ensures size { HasDevice K.ChannelPort self.new (D.state device.new) }
    {
        match event {
            Event::Write(write) => Reply::Write(self.write(write)),
            Event::Read { line } => Reply::Read(self.read(line)),
            Event::Collect(ticket) => Reply::Collect(self.collect(ticket)),
            Event::Work { channel } => Reply::Work(self.work(channel)),
            Event::Sense => Reply::Sense(self.sense(energy)),
            Event::Arm => Reply::Arm(self.arm(device, energy)),
            Event::Disarm => Reply::Disarm(self.disarm()),
            Event::SaveBegin => Reply::SaveBegin(self.save_begin()),
            Event::SaveStep => Reply::SaveStep(self.save_step(device, energy)),
            Event::Lose => Reply::Lose(self.power_loss(device, energy)),
        }
    }

    /// Answers the events of a life in order, and cuts the stored writes at the beginning and behind each event, so that `TrailFull`
    /// is met only where the newest finished save lacks as many writes as may be stored. The answer's room is reserved first, so
    /// that an `Err` changed nothing.
    ///
    /// **The replies and the last state are a run of the machine**, at each moment of which a stop leaves what the machine
    /// says, whatever the device does; and after the last event the device's bytes restore to one of the machine's images.
    ///
    /// **With a gauge that has been honest since the life began, and a device that was spared, which fails in no loss more often
    /// than its calls may be made again, no closing save was broken off; and where no acknowledged write is still to be saved, a
    /// stop now leaves them all.**
    pub fn run<D: SaveDevice, E: Energy>(
        &mut self,
        alloc: Global,
        events: &[Event],
        device: &mut D,
        energy: &mut E,
    ) -> Result<Vec<Reply>, AllocError>
        requires channels { All (IsForChannels K.ChannelPort self.old) events.now }
        requires size { HasDevice K.ChannelPort self.old (D.state device.old) }
        ensures answers { IfOk result (λ replies. AnswersAll K.ChannelPort events.now replies.items
            (assembly self.old (D.state device.old) (E.gauge energy.old))
            (assembly self.new (D.state device.new) (E.gauge energy.new))) }
        ensures cuts { IfOk result (λ replies. AnswersCut K.ChannelPort events.now replies.items
            (assembly self.old (D.state device.old) (E.gauge energy.old))
            (assembly self.new (D.state device.new) (E.gauge energy.new))) }
        ensures cut { IfOk result (λ replies. self.new.front.terms.cut ≡ self.new.front.saved) }
        ensures honest { IfOk result (λ replies. StaysWhereHonest K.ChannelPort
            events.now replies.items
            (assembly self.old (D.state device.old) (E.gauge energy.old))
            (assembly self.new (D.state device.new) (E.gauge energy.new))) }
        ensures setup { setup_of K.ChannelPort self.new ≡ setup_of K.ChannelPort self.old }
        ensures size { HasDevice K.ChannelPort self.new (D.state device.new) }
        ensures unchanged { IfErr result (λ error. self.new ≡ self.old) }
        ensures device { IfErr result (λ error. device.new ≡ device.old) }
        ensures energy { IfErr result (λ error. energy.new ≡ energy.old) }
    {
        let mut replies = Vec::with_capacity(alloc, events.len())?;
        let _first = self.cut();
        for event in events {
            replies.push_reserved(self.apply(*event, device, energy));
            let _gone = self.cut();
        }
        Ok(replies)
    }
}
