// Reads of a life.
ghost use Rattle.std.specs.Prelude.{◌≡◌};
ghost use Rattle.nv_session.specs.Coming.{IsOneEvent};
ghost use Rattle.open_life.specs.Reads.{ReadsLine};

use crate::life::OpenLife;
use crate::turns::{LineRead, read};
use arm_state::ReadRefusal;
use channel_port::{ChannelPort, Collected, Ticket};
use nv_machine::{Event, Reply};
use save_device::SaveDevice;

impl<K: ChannelPort, D: SaveDevice> OpenLife<K, D> {
    ghost use Rattle.open_life.specs.Lives.{GoesOn};
    ghost use Rattle.open_life.specs.Now.{now_of};

    /// Reads a line of the memory after all accepted writes. Where its bytes are to come with a command of its channel, that is worked in
    /// so many turns at most; a read that waits longer has a ticket.
    pub fn read(&mut self, line: u64, turns: u64) -> Result<LineRead, ReadRefusal>
        ensures goes { GoesOn K.ChannelPort (λ setup. ReadsLine turns setup line result)
            (now_of self.old) (now_of self.new) }
        ensures device { self.new.device ≡ self.old.device }
        ensures gauge { self.new.gauge ≡ self.old.gauge }
        ensures profile { self.new.profile ≡ self.old.profile }
    {
        read(&mut self.running, line, turns)
    }

    /// What there is for a ticket; `Unknown` once it was given, or mains were lost.
    pub fn collect(&mut self, ticket: Ticket) -> Collected
        ensures goes { GoesOn K.ChannelPort
            (λ setup. IsOneEvent (Event.Collect ticket) (Reply.Collect result))
            (now_of self.old) (now_of self.new) }
        ensures device { self.new.device ≡ self.old.device }
        ensures gauge { self.new.gauge ≡ self.old.gauge }
        ensures profile { self.new.profile ≡ self.old.profile }
    {
        self.running.collect(ticket)
    }
}
