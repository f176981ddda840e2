// A plain array of lines with its device.
ghost use Rattle.std.specs.Prelude.{◌≡◌, length};
ghost use Rattle.slot_store.specs.Slots.{HasSize, IsCapacity};

use crate::measured::{Measured, Stall};
use line_memory::Line;
use save_device::SaveDevice;
use slot_store::{Newest, Restored, device_size, restore, save};
use std::alloc::Global;

/// The most writes, and the greatest generation, that a save is begun with.
const MOST: u64 = 1 << 62;

/// The lines in their order, and what is known of the device.
#[derive(Drop)]
pub struct Plain<D: SaveDevice> {
    lines: Vec<Line>,
    device: D,
    newest: Newest,
    closed: bool,
    count: u64,
    ghost whole: { IsCapacity (length lines.items) },
    ghost sized: { HasSize (length lines.items) (D.state device) },
}

impl<D: SaveDevice + Drop> Plain<D> {
    /// The memory that a device restores to.
    pub(crate) fn open(alloc: Global, mut device: D, lines: usize) -> anyhow::Result<Plain<D>>
        requires { IsCapacity lines }
    {
        if device.len() != device_size(lines) {
            return Err(Stall::Device.into());
        }
        let restored = restore(alloc, &mut device, lines)?;
        let Restored { head, lines, .. } = restored;
        Ok(Plain {
            lines,
            device,
            newest: head.newest,
            closed: head.closed,
            count: head.count,
        })
    }

    /// The device, without the lines.
    pub(crate) fn into_device(self) -> D {
        self.device
    }
}

impl<D: SaveDevice + Drop> Measured for Plain<D> {
    fn write(&mut self, line: u64, data: Line) -> Result<(), Stall> {
        let Some(place) = self.lines.get_mut(line as usize) else {
            return Err(Stall::Write);
        };
        *place = data;
        self.count = self.count.wrapping_add(1);
        Ok(())
    }

    fn read(&mut self, line: u64) -> Result<Line, Stall> {
        match self.lines.get(line as usize) {
            Some(bytes) => Ok(*bytes),
            None => Err(Stall::Read),
        }
    }

    fn save(&mut self) -> Result<u64, Stall> {
        if self.newest.generation >= MOST || self.count > MOST {
            return Err(Stall::Save);
        }
        let Ok(newest) = save(
            &mut self.device,
            self.newest,
            self.closed,
            self.count,
            false,
            &self.lines,
        ) else {
            return Err(Stall::Save);
        };
        self.newest = newest;
        self.closed = false;
        Ok(newest.generation)
    }
}
