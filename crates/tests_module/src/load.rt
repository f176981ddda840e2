// A module of two channels with its device, and what the device restores to.
ghost use Rattle.std.specs.Prelude.{◌≡◌, length};
ghost use Rattle.module_core.specs.Stands.{HasDevice, setup_of};

use crate::check::same;
use arm_state::{ArmReply, DisarmReply, Loss};
use channel_port::ChannelPort;
use energy_budget::Meter;
use line_memory::{Line, Write};
use module_core::Module;
use nv_machine::StepReply;
use save_device::SaveDevice;
use slot_store::{Restored, Verdict, device_size, format, restore};
use std::alloc::Global;
use std::process::Abort;

/// The lines of the small profile.
const LINES: usize = 128;

/// How many turns a save may take.
const TURNS: u64 = 1 << 20;

/// A module, its device and its gauge.
#[derive(Drop)]
pub struct Load<K: ChannelPort, D: SaveDevice> {
    pub running: Module<K>,
    pub device: D,
    pub gauge: Meter,
    ghost counted: { (setup_of K.ChannelPort running).shape.channels ≡ 2 },
    ghost sized: { HasDevice K.ChannelPort running (D.state device) },
}

impl<K: ChannelPort, D: SaveDevice> Load<K, D> {
    // Issues a command of each channel, where it has one, and makes a step of the save that runs.
    fn turn(&mut self) -> StepReply {
        // a channel may have no command at this turn
        let _issued = self.running.work(0);
        let _issued = self.running.work(1);
        self.running.save_step(&mut self.device, &mut self.gauge)
    }

    /// Begins a save.
    pub(crate) fn begin_save<R: Abort>(&mut self, rt: &R) {
        same(rt, self.running.save_begin(), Ok(()));
    }

    /// Makes the rest of a save that runs; its generation.
    pub(crate) fn finish_save<R: Abort>(&mut self, rt: &R) -> u64 {
        for _turn in 0..TURNS {
            match self.turn() {
                StepReply::Saved { generation, .. } => return generation,
                StepReply::Did(_) | StepReply::Waiting => {}
                _ => panic!(*rt; "no save"),
            }
        }
        panic!(*rt; "not there in time")
    }

    /// Writes a line.
    pub(crate) fn write<R: Abort>(&mut self, rt: &R, line: u64) {
        let data = [0x44; 64];
        same(rt, self.running.write(Write { line, data }).is_ok(), true);
    }

    /// Arms, writes the first line, and issues one command of its channel: a row is open there, and the write waits.
    pub(crate) fn arm_with_a_write<R: Abort>(&mut self, rt: &R) {
        let armed = self.running.arm(&mut self.device, &mut self.gauge);
        same(rt, armed, Ok(ArmReply::Armed));
        self.write(rt, 0);
        same(rt, self.running.work(0).is_some(), true);
    }

    /// Loses mains.
    pub(crate) fn lose(&mut self) -> Loss {
        self.running.power_loss(&mut self.device, &mut self.gauge)
    }

    /// Writes three lines, and saves them as the second image.
    pub(crate) fn save_three_writes<R: Abort>(&mut self, rt: &R) {
        self.write(rt, 0);
        self.write(rt, 64);
        self.write(rt, 127);
        self.begin_save(rt);
        same(rt, self.finish_save(rt), 2);
    }

    /// The gauge shows enough for each closing save.
    pub(crate) fn charge(&mut self) {
        self.gauge.set(9000);
    }

    /// Begins a disarming.
    pub(crate) fn disarm<R: Abort>(&mut self, rt: &R) {
        same(rt, self.running.disarm(), Ok(DisarmReply::Disarming));
    }

    /// Cuts the stored writes, of which so many go.
    pub(crate) fn cuts<R: Abort>(&mut self, rt: &R, gone: u64) {
        same(rt, self.running.cut(), gone);
    }
}

/// What a device restores to.
#[derive(Clone, Copy, Debug, PartialEq, Eq)]
pub struct Image {
    pub generation: u64,
    pub count: u64,
    pub verdict: Verdict,
    /// The bytes of the first line and of the last one.
    pub first: u8,
    pub last: u8,
}

fn byte_of(line: Option<&Line>) -> u8 {
    match line {
        Some(bytes) => bytes[0],
        None => 0xff,
    }
}

fn image_of(restored: &Restored) -> Image {
    Image {
        generation: restored.head.newest.generation,
        count: restored.head.count,
        verdict: restored.head.verdict,
        first: byte_of(restored.lines.first()),
        last: byte_of(restored.lines.last()),
    }
}

/// Fails where a device doesn't restore to this image.
pub(crate) fn restores_to<D: SaveDevice, R: Abort>(
    rt: &R,
    alloc: Global,
    device: &mut D,
    image: Image,
)
    ensures same { (D.state device.new).bytes ≡ (D.state device.old).bytes }
{
    let Ok(restored) = restore(alloc, device, LINES) else {
        panic!(*rt; "an image");
    };
    same(rt, image_of(&restored), image);
}

/// Formats the device, as another writer does.
pub(crate) fn format_again<D: SaveDevice, R: Abort>(rt: &R, device: &mut D)
    ensures size { length (D.state device.new).bytes ≡ length (D.state device.old).bytes }
{
    if device.len() != device_size(LINES) {
        panic!(*rt; "another device");
    }
    same(rt, format(device, LINES).is_ok(), true);
}
