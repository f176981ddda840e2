// A module with its device and its gauge, and what C asks of it.
ghost use Rattle.std.specs.Prelude.{◌≡◌};
ghost use Rattle.panguhero_c.specs.Calls.{Collects, LosesMains, Reads, Saves, Writes, mark_in};

use channel_port::{Collected, Ticket};
use ddr4_port::Ddr4Port;
use interleave_map::ReadyMap;
use line_memory::{LINE_BYTES, Write};
use noted_device::NotedDevice;
use open_life::{EitherDevice, LineRead, OpenLife};
use reply_codes::{
    BUFFER, DONE, Told, collected_told, loss_told, read_told, save_told, ticket_told, write_told,
};
use save_device::{Fuse, MemoryDevice};

/// A device in memory, whose bytes C has at the end, or one whose changes C makes on a store of its own; calls of it can be made to fail.
pub(crate) type StoreDevice = Fuse<EitherDevice<MemoryDevice, NotedDevice>>;

/// The life of a module over a map that stays in memory.
pub(crate) type StoreLife = OpenLife<Ddr4Port<'static, ReadyMap>, StoreDevice>;

/// A module that was opened, with its device and its gauge.
#[derive(Drop)]
pub struct OpenModule {
    pub(crate) life: StoreLife,
}

impl OpenModule {
    /// Writes a line. The bytes have to be those of a line.
    pub(crate) fn write(&mut self, line: u64, bytes: &[u8]) -> Told
        ensures { Writes line bytes.now result self.old.life self.new.life }
    {
        match bytes.as_array::<LINE_BYTES>() {
            Some(bytes) => write_told(self.life.write(Write { line, data: *bytes })),
            None => Told::code(BUFFER),
        }
    }

    /// Reads a line into a buffer, which has to hold a line, in so many turns at most. A refusal leaves the buffer as it was.
    pub(crate) fn read(&mut self, line: u64, wait: u64, into: &mut [u8]) -> Told
        ensures { Reads line wait into.old into.new result self.old.life self.new.life }
    {
        if into.len() != LINE_BYTES {
            return Told::code(BUFFER);
        }
        match self.life.read(line, wait) {
            Ok(LineRead::Content(bytes)) => {
                into.copy_from_slice(&bytes);
                Told::code(DONE)
            }
            Ok(LineRead::Waiting(ticket)) => ticket_told(ticket),
            Err(refusal) => read_told(Err(refusal)),
        }
    }

    /// What there is for a ticket, into a buffer, which has to hold a line.
    pub(crate) fn collect(&mut self, ticket: Ticket, into: &mut [u8]) -> Told
        ensures { Collects ticket into.old into.new result self.old.life self.new.life }
    {
        let is_line = into.len() == LINE_BYTES;
        if !is_line {
            return Told::code(BUFFER);
        }
        match self.life.collect(ticket) {
            Collected::Data { line, bytes, at } => {
                into.copy_from_slice(&bytes);
                collected_told(ticket, Collected::Data { line, bytes, at })
            }
            Collected::Pending => collected_told(ticket, Collected::Pending),
            Collected::Unknown => collected_told(ticket, Collected::Unknown),
        }
    }

    /// A whole save of all accepted writes, or the rest of one that runs.
    pub(crate) fn save(&mut self) -> Told
        ensures { Saves result self.old.life self.new.life }
    {
        save_told(self.life.save())
    }

    /// Mains are lost.
    pub(crate) fn lose(&mut self) -> Told
        ensures { LosesMains result self.old.life self.new.life }
    {
        loss_told(self.life.lose())
    }

    /// How many writes are persistent.
    pub(crate) fn mark(&self) -> u64
        ensures { result ≡ mark_in self.now.life }
    {
        self.life.mark()
    }
}
