// Writes, reads and saves of a life, in pseudo-random order.
use arm_state::WriteRefusal;
use channel_port::{ChannelPort, Collected, Ticket};
use line_memory::{Line, Write};
use nv_machine::StepReply;
use open_life::{LineRead, OpenLife};
use save_device::SaveDevice;
use std::time::{CpuClock, Duration};

/// How many turns a read takes at once, and how often the channels are worked for one call.
const WAIT: u64 = 64;

const TURNS: u64 = 65_536;

/// What the rounds took, in nanoseconds of processor time, and a sum of what was read.
#[derive(Clone, Copy, Default)]
pub(crate) struct RoundTimes {
    pub(crate) writes: u128,
    pub(crate) reads: u128,
    pub(crate) saves: u128,
    pub(crate) sum: u64,
}

// How many nanoseconds lie between two of the clock's times.
fn nanos_between(from: Duration, to: Duration) -> u128 {
    to.as_nanos().saturating_sub(from.as_nanos())
}

/// A life, how many lines it has, the state of the order, and the line that was read last.
#[derive(Drop)]
pub(crate) struct Load<K: ChannelPort, D: SaveDevice> {
    life: OpenLife<K, D>,
    lines: u64,
    state: u64,
    bytes: Line,
}

impl<K: ChannelPort, D: SaveDevice> Load<K, D> {
    pub(crate) fn new(life: OpenLife<K, D>) -> Load<K, D> {
        Load {
            lines: life.line_count(),
            life,
            state: 88_172_645_463_325_252,
            bytes: [0; 64],
        }
    }

    fn line(&mut self) -> u64 {
        self.state ^= self.state << 13;
        self.state ^= self.state >> 7;
        self.state ^= self.state << 17;
        self.state.checked_rem(self.lines).unwrap_or(0)
    }

    fn write(&mut self, line: u64, data: Line) -> anyhow::Result<()> {
        for _turn in 0..TURNS {
            match self.life.write(Write { line, data }) {
                Ok(_) => return Ok(()),
                Err(WriteRefusal::Full) => {
                    let _issued = self.life.work_each();
                }
                Err(_) => anyhow::bail!("a write was refused"),
            }
        }
        anyhow::bail!("a write found no room")
    }

    // Works the channels until a read that waited has its bytes.
    fn await_read(&mut self, ticket: Ticket) -> anyhow::Result<()> {
        for _turn in 0..TURNS {
            let _issued = self.life.work_each();
            if let Collected::Data { bytes, .. } = self.life.collect(ticket) {
                self.bytes = bytes;
                return Ok(());
            }
        }
        anyhow::bail!("a read found no bytes")
    }

    fn read(&mut self, line: u64) -> anyhow::Result<()> {
        match self.life.read(line, WAIT) {
            Ok(LineRead::Content(bytes)) => {
                self.bytes = bytes;
                Ok(())
            }
            Ok(LineRead::Waiting(ticket)) => self.await_read(ticket),
            Err(_) => anyhow::bail!("a read was refused"),
        }
    }

    fn writes(&mut self, each: u64) -> anyhow::Result<()> {
        let mut data = [0; 64];
        for k in 0..each {
            data[..8].copy_from_slice(&k.to_le_bytes());
            let line = self.line();
            self.write(line, data)?;
        }
        Ok(())
    }

    // Of each line that was read the sum takes one byte, whose place the order tells, so that the line is wanted whole.
    fn reads(&mut self, each: u64, sum: &mut u64) -> anyhow::Result<()> {
        for _ in 0..each {
            let line = self.line();
            self.read(line)?;
            let place = self.state & 63;
            *sum = sum.wrapping_add(u64::from(self.bytes[place as usize]));
        }
        Ok(())
    }

    /// Each further call once. The library has all of them, and a function with two callers is compiled otherwise than one with one.
    pub(crate) fn end(&mut self) {
        let _reading = self.life.set_energy(u64::MAX);
        let _armed = self.life.arm();
        let _disarmed = self.life.disarm();
        let _step = self.life.step();
        let _loss = self.life.lose();
    }

    /// Writes, reads and one save.
    pub(crate) fn round(
        &mut self,
        clock: &impl CpuClock,
        each: u64,
        tally: &mut RoundTimes,
    ) -> anyhow::Result<()> {
        let start = clock.process_cpu_time()?;
        self.writes(each)?;
        let written = clock.process_cpu_time()?;
        self.reads(each, &mut tally.sum)?;
        let read = clock.process_cpu_time()?;
        let Ok(StepReply::Saved { .. }) = self.life.save() else {
            anyhow::bail!("a save was refused");
        };
        let saved = clock.process_cpu_time()?;
        tally.writes = tally.writes.saturating_add(nanos_between(start, written));
        tally.reads = tally.reads.saturating_add(nanos_between(written, read));
        tally.saves = tally.saves.saturating_add(nanos_between(read, saved));
        Ok(())
    }
}
