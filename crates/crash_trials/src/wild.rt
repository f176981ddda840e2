// Lives on a gauge that answers any words, over a device that fails at will, each drawn from a seed.
ghost use Rattle.std.specs.Prelude.{All};
ghost use Rattle.ddr4_module.specs.WildLives.{WorksWithin};

use crate::draws::Draws;
use crate::events::events_of;
use crate::judging::{Restored, Wrong};
use crate::tally::Findings;
use crate::trials::Trials;
use arm_state::Loss;
use ddr4_module::{Sizes, wild_life};
use energy_budget::{Costs, Energy, Wild};
use interleave_map::Interleaving;
use interleave_map::cells::line_count;
use line_memory::{Line, Write};
use nv_machine::{Event, Reply, StepReply};
use save_device::{Fuse, MemoryDevice, OneFault, SaveDevice};
use save_image::PAGE_LINES;
use slot_store::{MOST_LINES, Verdict, restore};
use std::alloc::{AllocError, Global};

/// The writes that a life accepted, in order, and how many of them it told persistent.
#[derive(Drop)]
struct Told {
    writes: Vec<Write>,
    told: u64,
}

/// How a life ended: what it told, what a stop left of its device, and whether neither the gauge nor the device counted a fault.
#[derive(Drop)]
struct Ended {
    told: Told,
    device: MemoryDevice,
    is_faultless: bool,
}

// Up to which number a reply tells that writes are persistent.
fn told_by(reply: &Reply) -> u64 {
    match reply {
        Reply::Write(Ok(accepted)) => accepted.mark,
        Reply::SaveStep(StepReply::Saved { count, .. }) => *count,
        Reply::Lose(Loss::Saved { count, .. }) => *count,
        _ => 0,
    }
}

impl Told {
    // By the replies to events.
    fn by(alloc: Global, events: &[Event], replies: &[Reply]) -> Result<Told, AllocError> {
        let mut told = Told {
            writes: Vec::new(alloc),
            told: 0,
        };
        for (event, reply) in events.iter().zip(replies.iter()) {
            if let (Event::Write(write), Reply::Write(Ok(_))) = (event, reply) {
                told.writes.push(*write)?;
            }
            told.told = told.told.max(told_by(reply));
        }
        Ok(told)
    }

    // The memory after its first writes.
    fn memory(&self, alloc: Global, lines: usize, count: u64) -> Result<Vec<Line>, AllocError> {
        let mut memory = Vec::from_elem(alloc, [0; 64], lines)?;
        for write in self.writes.iter().take(count as usize) {
            if let Some(line) = memory.get_mut(write.line as usize) {
                *line = write.data;
            }
        }
        Ok(memory)
    }
}

impl Ended {
    // Whether what a restore finds is lawful. Where nothing counted a fault and mains were lost in the end, it has all that was
    // told.
    fn judged(
        mut self,
        alloc: Global,
        lines: usize,
        loses: bool,
    ) -> Result<Result<Restored, Wrong>, AllocError> {
        if lines % PAGE_LINES != 0 || lines < PAGE_LINES || lines > MOST_LINES {
            return Ok(Err(Wrong::Refused));
        }
        let Ok(found) = restore(alloc, &mut self.device, lines) else {
            return Ok(Err(Wrong::Refused));
        };
        let count = found.head.count;
        let is_complete = found.head.verdict == Verdict::Complete;
        Ok(if count > self.told.writes.len() as u64 {
            Err(Wrong::Count)
        } else if found.lines != self.told.memory(alloc, lines, count)? {
            Err(Wrong::Line)
        } else if count >= self.told.told {
            Ok(Restored { count, is_complete })
        } else if is_complete {
            Err(Wrong::Complete)
        } else if loses && self.is_faultless {
            Err(Wrong::Lost)
        } else {
            Ok(Restored { count, is_complete })
        })
    }
}

impl Trials<'_> {
    // A life of these events on a formatted device, with the rest drawn; and a stop behind it. Where the device refuses to be
    // restored there is no life.
    fn live(&self, events: &[Event], draws: &mut Draws) -> anyhow::Result<Ended>
        requires { All (WorksWithin self.now.profile.now.checked.geometry.channels) events.now }
    {
        let profile = self.profile;
        let passes = draws.calls().unwrap_or(u64::MAX);
        let mut frail = OneFault::new(Fuse::new(self.formatted()?, passes), 0);
        frail.before = draws.calls();
        let mut gauge = Wild::new(draws.words(self.alloc)?);
        let replies = wild_life(
            self.alloc,
            &self.map(Interleaving::Lines),
            &profile.checked,
            Costs::of(&profile.checked, &profile.costs).with_retries(profile.sizes.retries),
            Sizes {
                depth: profile.sizes.depth,
                reads: profile.sizes.reads,
                trail: profile.sizes.trail,
                keeps_commands: false,
            },
            events,
            &mut frail,
            &mut gauge,
        )
        .unwrap_or(Vec::new(self.alloc));
        let is_faultless = gauge.faults() == 0 && frail.faults() == 0;
        let mut device = frail.device.device;
        device.stop(draws.pick());
        Ok(Ended {
            told: Told::by(self.alloc, events, &replies)?,
            device,
            is_faultless,
        })
    }

    // The life of a seed.
    fn try_seed(&self, text: &str, seed: u64) -> anyhow::Result<Result<Restored, Wrong>> {
        let mut draws = Draws::of(seed);
        let lines = draws.below(text.split('\n').count() as u64) as usize;
        let loses = draws.below(4) > 0;
        let events = events_of(self.alloc, self.profile, text, lines, loses)?;
        let lines = line_count(&self.profile.checked) as usize;
        Ok(
            self.live(&events, &mut draws)?
                .judged(self.alloc, lines, loses)?,
        )
    }

    /// A life of each of these seeds.
    pub(crate) fn wild_lives(&self, text: &str, first: u64, most: u64) -> anyhow::Result<Findings> {
        let mut tally = Findings::new(self.alloc);
        for seed in first..most {
            match self.try_seed(text, seed)? {
                Ok(restored) => tally.counts.count(restored),
                Err(wrong) => {
                    let script = format!(in self.alloc; "seed {seed}: {text}")?;
                    tally.blame(self.alloc, &script, wrong)?;
                }
            }
        }
        Ok(tally)
    }
}
