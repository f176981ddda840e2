// A module with its device, whose channels are worked where a call has to wait for them.
ghost use Rattle.std.specs.Prelude.{◌≡◌};
ghost use Rattle.module_core.specs.Stands.{HasDevice, setup_of};

use crate::measured::{Measured, Stall};
use arm_state::WriteRefusal;
use channel_port::{ChannelPort, Collected, Got, Ticket};
use energy_budget::Meter;
use line_memory::{Line, Write};
use module_core::Module;
use nv_machine::StepReply;
use save_device::SaveDevice;

/// How often a channel is worked for one write or read.
const TURNS: u64 = 65_536;

/// How many turns a save may take.
const SAVE_TURNS: u64 = 1 << 20;

/// A module, its device and its gauge.
#[derive(Drop)]
pub struct Load<K: ChannelPort, D: SaveDevice> {
    pub(crate) running: Module<K>,
    pub(crate) device: D,
    pub(crate) gauge: Meter,
    pub(crate) channels: u64,
    ghost counted: { channels ≡ (setup_of K.ChannelPort running).shape.channels },
    ghost sized: { HasDevice K.ChannelPort running (D.state device) },
}

impl<K: ChannelPort + Drop, D: SaveDevice + Drop> Load<K, D> {
    /// A module that was opened on this device.
    pub(crate) fn new(running: Module<K>, device: D, channels: u64) -> Load<K, D>
        requires channels { channels ≡ (setup_of K.ChannelPort running).shape.channels }
        requires size { HasDevice K.ChannelPort running (D.state device) }
    {
        Load {
            running,
            device,
            gauge: Meter::with(0, 0),
            channels,
        }
    }

    /// The device, without the module.
    pub(crate) fn into_device(self) -> D {
        self.device
    }

    // Issues one command of a channel, where there is the channel and it has one.
    fn work(&mut self, channel: u64) -> bool {
        channel < self.channels && self.running.work(channel).is_some()
    }

    fn work_each(&mut self) {
        for channel in 0..self.channels {
            // a channel may have no command at this turn
            let _issued = self.work(channel);
        }
    }

    // Works the channel of a line, which the low part of the line names.
    fn work_for(&mut self, line: u64) -> Result<(), Stall> {
        let channel = line.checked_rem(self.channels).unwrap_or(0);
        if self.work(channel) {
            Ok(())
        } else {
            Err(Stall::Idle)
        }
    }

    // Works the channel of a read that waits, until it has its bytes.
    fn await_read(&mut self, ticket: Ticket) -> Result<Line, Stall> {
        for _turn in 0..TURNS {
            if let Collected::Data { bytes, .. } = self.running.collect(ticket) {
                return Ok(bytes);
            }
            if !self.work(ticket.channel) {
                return Err(Stall::Idle);
            }
        }
        Err(Stall::Turns)
    }

    // Makes a step of the save that runs; its generation after the last one.
    fn step(&mut self) -> Result<Option<u64>, Stall> {
        match self.running.save_step(&mut self.device, &mut self.gauge) {
            StepReply::Saved { generation, .. } => Ok(Some(generation)),
            StepReply::Did(_) => Ok(None),
            StepReply::Waiting => {
                self.work_each();
                Ok(None)
            }
            _ => Err(Stall::Save),
        }
    }
}

impl<K: ChannelPort + Drop, D: SaveDevice + Drop> Measured for Load<K, D> {
    fn write(&mut self, line: u64, data: Line) -> Result<(), Stall> {
        for _turn in 0..TURNS {
            match self.running.write(Write { line, data }) {
                Ok(_) => return Ok(()),
                Err(WriteRefusal::Full) => self.work_for(line)?,
                Err(_) => return Err(Stall::Write),
            }
        }
        Err(Stall::Turns)
    }

    fn read(&mut self, line: u64) -> Result<Line, Stall> {
        match self.running.read(line) {
            Ok(Got::Now(bytes)) => Ok(bytes),
            Ok(Got::Later(ticket)) => self.await_read(ticket),
            Err(_) => Err(Stall::Read),
        }
    }

    fn save(&mut self) -> Result<u64, Stall> {
        if self.running.save_begin().is_err() {
            return Err(Stall::Save);
        }
        for _turn in 0..SAVE_TURNS {
            if let Some(generation) = self.step()? {
                return Ok(generation);
            }
        }
        Err(Stall::Turns)
    }
}
