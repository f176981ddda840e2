// A channel whose write queue is full.
ghost use Rattle.std.specs.Prelude.{◌≡◌};

use anyhow::Context;
use bench_load::Random;
use chan_core::{Channel, Phase};
use channel_port::Served;
use ddr4_timing::command::Stamped;
use ddr4_timing::timing::Checked;
use drain_core::laws::running_channel_may_drain;
use drain_core::{DrainReport, drain};
use energy_budget::{Costs, TINY_COSTS};
use interleave_map::cells::line_count;
use interleave_map::line_map::LineMap;
use std::alloc::Global;
use std::marker::Model;

/// How many writes are pending.
pub(crate) const DEPTH: usize = 64;

/// One channel of a profile, with the number of its next write and the stream that its writes come from.
#[derive(Drop)]
pub struct Load<'m, M: LineMap> {
    map: &'m M,
    checked: Checked,
    channel: Channel,
    costs: Costs,
    number: u64,
    random: Random,
}

impl<'m, M: LineMap> Model for Load<'m, M> {
    ghost use Rattle.std.specs.Prelude.{◌≡◌};
    ghost use Rattle.ddr4_timing.specs.declared.timing.Checked.{Checked};
    ghost use Rattle.energy_budget.specs.Costs.{AreReckonedFor};

    ghost Value = { Checked };

    ghost view = { λ l. l.checked };

    ghost invariant = { λ l. M.is_lawful l.map.now × (M.geometry_of l.map.now ≡ l.checked.geometry)
        × (l.channel.checked ≡ l.checked) × AreReckonedFor l.checked l.costs };
}

impl<'m, M: LineMap> Load<'m, M> {
    /// The channel of this number with a full write queue, and no command so far.
    pub(crate) fn new(
        alloc: Global,
        map: &'m M,
        checked: &Checked,
        channel: u64,
    ) -> anyhow::Result<Load<'m, M>>
        requires lawful { M.is_lawful map.now }
        requires geometry { M.geometry_of map.now ≡ checked.now.geometry }
    {
        if !TINY_COSTS.is_in_limits() {
            anyhow::bail!("no such costs");
        }
        let mut load = Load {
            map,
            checked: *checked,
            channel: Channel::new(alloc, checked, channel, DEPTH, 1)?,
            costs: Costs::of(checked, &TINY_COSTS),
            number: 0,
            random: Random::with_seed(channel.wrapping_add(7)),
        };
        for _ in 0..DEPTH {
            load.put()?;
        }
        Ok(load)
    }

    // Writes the stream's next line.
    fn put(&mut self) -> anyhow::Result<()> {
        let random = self.random.next();
        let first = random.wrapping_mul(self.checked.geometry.channels);
        let line = first.wrapping_add(self.channel.number()) % line_count(&self.checked);
        if !self.channel.has_line(self.map, line) || !self.channel.may_take(self.number) {
            anyhow::bail!("no such write");
        }
        let put = self.channel.put(self.map, self.number, line, [1; 64]);
        put.ok().context("no room for a write")?;
        self.number = self.number.wrapping_add(1);
        Ok(())
    }

    /// Issues commands up to a clock, and replaces each write that was served.
    pub(crate) fn work_until(&mut self, until: u64) -> anyhow::Result<()> {
        for _ in 0..until {
            let done = self.channel.work().context("idle")?;
            if let Some(Served::Write { .. }) = done.served {
                self.put()?;
            }
            if done.command.clock >= until {
                return Ok(());
            }
        }
        anyhow::bail!("not there in time")
    }

    /// Issues so many commands, and replaces each write that was served.
    pub(crate) fn commands(&mut self, alloc: Global, count: u64) -> anyhow::Result<Vec<Stamped>> {
        let mut commands = Vec::new(alloc);
        for _ in 0..count {
            let done = self.channel.work().context("idle")?;
            if let Some(Served::Write { .. }) = done.served {
                self.put()?;
            }
            commands.push(done.command)?;
        }
        Ok(commands)
    }

    /// Drains the channel.
    pub(crate) fn drain(&mut self) -> anyhow::Result<DrainReport> {
        if !matches!(self.channel.phase(), Phase::Running) || self.channel.clock() >= 1 << 62 {
            anyhow::bail!("may not drain");
        }
        self.channel.always();
        running_channel_may_drain();
        Ok(drain(&mut self.channel, &self.costs))
    }

    /// The channel as it is.
    pub(crate) fn into_channel(self) -> Channel {
        self.channel
    }
}
