// An armed life: writes that are admitted by the energy for their save, and a loss of mains with full queues.
use crate::load::Load;
use crate::measured::{Measured, Stall};
use crate::opening::{DEPTH, open};
use crate::picks::{Pick, Picks};
use crate::rounds::formatted;
use arm_state::Loss;
use channel_port::ChannelPort;
use energy_budget::Meter;
use interleave_map::ReadyMap;
use interleave_map::cells::line_count;
use line_memory::Write;
use save_device::SaveDevice;
use std::time::Instant;

/// More energy than any save takes, in units.
const ENERGY: u64 = 1 << 62;

/// What an armed life did, and how many nanoseconds that took.
#[derive(Clone, Copy)]
pub struct Armed {
    pub writes: u128,
    pub loss: u128,
    /// How many writes waited when the mains were lost.
    pub waiting: u64,
    /// The image that the loss saved.
    pub generation: u64,
    pub count: u64,
}

impl<K: ChannelPort + Drop, D: SaveDevice + Drop> Load<K, D> {
    // Arms, with energy for any save.
    fn arm(&mut self) -> Result<(), Stall> {
        self.gauge = Meter::with(ENERGY, 0);
        match self.running.arm(&mut self.device, &mut self.gauge) {
            Ok(_) => Ok(()),
            Err(_) => Err(Stall::Arm),
        }
    }

    // Writes a line until its channel's queue is full.
    fn fill_queue_of(&mut self, line: u64) {
        for turn in 0..=DEPTH {
            let write = Write {
                line,
                data: [turn as u8; 64],
            };
            if self.running.write(write).is_err() {
                return;
            }
        }
    }

    // Fills the queue of each channel; how many writes wait then. The lowest lines lie on the channels in turn.
    fn fill(&mut self) -> u64 {
        for line in 0..self.channels {
            self.fill_queue_of(line);
        }
        self.channels.saturating_mul(DEPTH)
    }

    // Loses the mains; the generation and the count that were saved.
    fn lose(&mut self) -> Result<(u64, u64), Stall> {
        match self.running.power_loss(&mut self.device, &mut self.gauge) {
            Loss::Saved { generation, count } => Ok((generation, count)),
            _ => Err(Stall::Loss),
        }
    }
}

// Writes so many lines, and works a channel where its queue is full.
fn write_each<K: ChannelPort + Drop, D: SaveDevice + Drop>(
    load: &mut Load<K, D>,
    picks: &mut Picks,
    each: u64,
) -> Result<(), Stall> {
    for _ in 0..each {
        let Pick { line, byte } = picks.next();
        load.write(line, [byte; 64])?;
    }
    Ok(())
}

/// An armed life of a module: so many writes, then as many as fill all queues, and the loss of mains.
pub(crate) fn armed_life(rt: &HostRuntime, map: &ReadyMap, each: u64) -> anyhow::Result<Armed> {
    let device = formatted(rt.alloc(), &map.checked)?;
    let mut load = open(rt.alloc(), map, device)?;
    let mut picks = Picks::new(line_count(&map.checked));
    load.arm()?;
    let start = Instant::now(rt)?;
    write_each(&mut load, &mut picks, each)?;
    let writes = start.elapsed(rt)?.as_nanos();
    let waiting = load.fill();
    let start = Instant::now(rt)?;
    let (generation, count) = load.lose()?;
    Ok(Armed {
        writes,
        loss: start.elapsed(rt)?.as_nanos(),
        waiting,
        generation,
        count,
    })
}
