// A channel whose queues stay full.
ghost use Rattle.std.specs.Prelude.{◌≡◌};

use crate::trial::{Stream, Trial};
use bench_load::Random;
use chan_core::Channel;
use channel_port::{Got, Served};
use ddr4_timing::place::Place;
use ddr4_timing::timing::Checked;
use interleave_map::cells::line_count;
use interleave_map::line_map::LineMap;
use interleave_map::lines;
use std::alloc::Global;
use std::marker::Model;

/// Channel 0 of a profile, with the number of its next write and the stream that its requests come from.
#[derive(Drop)]
pub struct Load<'m, M: LineMap> {
    map: &'m M,
    checked: Checked,
    channel: Channel,
    number: u64,
    stream: Stream,
    turn: u64,
    random: Random,
}

impl<'m, M: LineMap> Model for Load<'m, M> {
    ghost use Rattle.std.specs.Prelude.{◌≡◌};
    ghost use Rattle.ddr4_timing.specs.declared.timing.Checked.{Checked};

    ghost Value = { Checked };

    ghost view = { λ l. l.checked };

    ghost invariant = { λ l. M.is_lawful l.map.now × (M.geometry_of l.map.now ≡ l.checked.geometry)
        × (l.channel.checked ≡ l.checked) };
}

impl<'m, M: LineMap> Load<'m, M> {
    /// A channel with all its requests pending.
    pub(crate) fn new(alloc: Global, map: &'m M, trial: &Trial) -> anyhow::Result<Load<'m, M>>
        requires lawful { M.is_lawful map.now }
        requires geometry { M.geometry_of map.now ≡ trial.now.checked.geometry }
    {
        let Trial {
            checked,
            depth,
            stream,
            ..
        } = *trial;
        if depth < 1 || depth > 64 {
            anyhow::bail!("no such depth");
        }
        let mut load = Load {
            map,
            checked,
            channel: Channel::new(alloc, &checked, 0, depth, depth)?,
            number: 0,
            stream,
            turn: 0,
            random: Random::with_seed(7),
        };
        for _ in 0..depth {
            if load.send(false).is_none() || load.send(true).is_none() {
                anyhow::bail!("no room for a request");
            }
        }
        Ok(load)
    }

    // Where the stream's request of this turn goes.
    fn place(&self, random: u64) -> Place {
        let checked = &self.checked;
        let cell = random.wrapping_mul(checked.geometry.channels);
        let place = lines::split(checked, cell & (line_count(checked) - 1));
        match self.stream {
            Stream::Hits => Place { row: 0, ..place },
            Stream::Conflicts => Place {
                rank: 0,
                group: 0,
                bank: 0,
                row: self.turn % checked.geometry.rows,
                ..place
            },
            Stream::Random => place,
        }
    }

    // Sends the stream's next request: a write to an even column, or a read of an odd one, so that no pending write answers
    // it. None where the channel has no such line, or no room.
    fn send(&mut self, reads: bool) -> Option<()> {
        self.turn = self.turn.wrapping_add(1);
        let random = self.random.next();
        let place = self.place(random);
        let column = (place.column / 2 * 2) | reads as u64;
        let place = Place { column, ..place };
        if !place.lies_in(&self.checked.geometry) {
            return None;
        }
        let line = self.map.line(place);
        if !self.channel.has_line(self.map, line) || !self.channel.may_take(self.number) {
            return None;
        }
        if reads {
            let got = self.channel.get(self.map, line, self.number);
            return matches!(got, Ok(Got::Later(_))).then_some(());
        }
        let put = self.channel.put(self.map, self.number, line, [1; 64]);
        self.number = self.number.wrapping_add(1);
        put.ok()
    }

    /// Issues so many commands, and replaces each request that was served: the clock of the last command. None where there is
    /// no further command, or a request isn't taken.
    pub(crate) fn run(&mut self, commands: u64) -> Option<u64> {
        let mut last = 0;
        for _ in 0..commands {
            let done = self.channel.work()?;
            last = done.command.clock;
            match done.served {
                Some(Served::Write { .. }) => self.send(false)?,
                Some(Served::Read(ticket)) => {
                    self.channel.collect(ticket);
                    self.send(true)?;
                }
                None => {}
            }
        }
        Some(last)
    }
}
