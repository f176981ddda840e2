// A channel that tests fill with writes and reads, work and drain.
ghost use Rattle.std.specs.Prelude.{◌≡◌};
ghost use Rattle.energy_budget.specs.Costs.{AreReckonedFor};

use chan_core::{Channel, Phase, RECENT, ReadsFull};
use channel_port::{Collected, Done, Got, Ticket};
use ddr4_timing::command::Stamped;
use ddr4_timing::fault::{Fault, first_fault};
use ddr4_timing::place::Place;
use ddr4_timing::timing::{Checked, Geometry, Timing};
use drain_core::laws::running_channel_may_drain;
use drain_core::{DrainReport, drain};
use energy_budget::{Costs, TINY_COSTS};
use interleave_map::cells::cells;
use interleave_map::line_map::LineMap;
use interleave_map::{Interleaving, ReadyMap};
use line_memory::Line;
use std::process::Abort;
use wpq_core::QueueFull;

/// Channel 0 of a profile, with the map `lines`, its costs and the number of its next write.
#[derive(Drop)]
pub struct Fixture {
    map: ReadyMap,
    channel: Channel,
    costs: Costs,
    number: u64,
    ghost profile: { channel.checked ≡ map.checked },
    ghost reckoned: { AreReckonedFor map.checked costs },
}

impl Fixture {
    /// So many writes may be pending, and so many reads.
    pub(crate) fn new<R: Abort + AllocGlobal>(
        rt: &R,
        timing: &Timing,
        geometry: &Geometry,
        depth: usize,
        reads: usize,
    ) -> Fixture {
        assert!(*rt; depth >= 1 && depth <= 64 && reads <= 64);
        assert!(*rt; TINY_COSTS.is_in_limits());
        let checked = timing.check(geometry).expect(rt, "a profile");
        let channel = Channel::new(rt.alloc(), &checked, 0, depth, reads).expect(rt, "memory");
        Fixture {
            map: ReadyMap {
                interleaving: Interleaving::Lines,
                checked,
            },
            channel,
            costs: Costs::of(&checked, &TINY_COSTS),
            number: 0,
        }
    }

    pub(crate) fn checked(&self) -> Checked {
        self.map.checked
    }

    pub(crate) fn costs(&self) -> Costs {
        self.costs
    }

    /// How many lines the channel has.
    pub(crate) fn lines(&self) -> u64 {
        cells(&self.map.checked) as u64
    }

    /// A line of the channel that the number picks.
    pub(crate) fn line(&self, pick: u64) -> u64 {
        let index = pick % cells(&self.map.checked) as u64;
        index * self.map.checked.geometry.channels
    }

    /// The line at a place.
    pub(crate) fn line_at<R: Abort>(&self, rt: &R, place: Place) -> u64 {
        assert!(*rt; place.lies_in(&self.map.checked.geometry));
        self.map.line(place)
    }

    /// Writes a line of one byte: the write's number and place.
    pub(crate) fn put<R: Abort>(
        &mut self,
        rt: &R,
        line: u64,
        byte: u8,
    ) -> Result<(u64, Place), QueueFull> {
        let number = self.number;
        assert!(*rt; self.channel.has_line(&self.map, line));
        assert!(*rt; self.channel.may_take(number) && number < u64::MAX);
        let place = self.map.place(line);
        match self.channel.put(&self.map, number, line, [byte; 64]) {
            Ok(()) => {
                self.number = number + 1;
                Ok((number, place))
            }
            Err(full) => Err(full),
        }
    }

    pub(crate) fn get<R: Abort>(&mut self, rt: &R, line: u64) -> Result<Got, ReadsFull> {
        assert!(*rt; self.channel.has_line(&self.map, line));
        self.channel.get(&self.map, line, self.number)
    }

    pub(crate) fn collect(&mut self, ticket: Ticket) -> Collected {
        self.channel.collect(ticket)
    }

    /// A line of the array.
    pub(crate) fn stored<R: Abort>(&self, rt: &R, line: u64) -> Line {
        assert!(*rt; self.channel.has_line(&self.map, line));
        self.channel.stored(&self.map, line)
    }

    /// The channel as it is.
    pub(crate) fn channel(&self) -> &Channel {
        &self.channel
    }

    /// The channel alone.
    pub(crate) fn into_channel(self) -> Channel {
        self.channel
    }

    pub(crate) fn hold_from(&mut self, number: u64) {
        self.channel.hold_from(number);
    }

    pub(crate) fn release(&mut self) {
        self.channel.release();
    }

    pub(crate) fn work(&mut self) -> Option<Done> {
        self.channel.work()
    }

    pub(crate) fn work_many<R: Abort + AllocGlobal>(&mut self, rt: &R, n: usize) -> Vec<Stamped> {
        self.channel.work_many(rt.alloc(), n).expect(rt, "memory")
    }

    /// Drains the channel.
    pub(crate) fn drain<R: Abort>(&mut self, rt: &R) -> DrainReport {
        let is_running = matches!(self.channel.phase(), Phase::Running);
        assert!(*rt; is_running && self.channel.clock() < 1 << 62);
        self.channel.always();
        running_channel_may_drain();
        drain(&mut self.channel, &self.costs)
    }

    /// The last commands, of those from a clock on.
    pub(crate) fn recent_from<R: Abort + AllocGlobal>(&self, rt: &R, clock: u64) -> Vec<Stamped> {
        let mut list = Vec::new(rt.alloc());
        for i in 0..RECENT {
            if let Some(command) = self.channel.recent(i) {
                if command.clock >= clock {
                    list.push(command).expect(rt, "memory");
                }
            }
        }
        list
    }

    /// The first fault of a list of commands, on its profile.
    pub(crate) fn fault(&self, list: &[Stamped]) -> Option<Fault> {
        first_fault(&self.map.checked.rules(), list)
    }
}
