// A life of a module with a journal in it.
ghost use Rattle.std.specs.Prelude.{◌≡◌, IfErr, IfNone, IfOk, IfSome, IsTrue, Ok, OnOk};
ghost use Rattle.energy_budget.specs.Meter.{meter_gauge};
ghost use Rattle.journal_log.specs.Calls.{Append, Truncate};
ghost use Rattle.journal_log.specs.Log.{Log};
ghost use Rattle.journal_table.specs.Calling.{IsCompacted};
ghost use Rattle.journal_table.specs.Standing.{IsTableOf};
ghost use Rattle.table_log.specs.Changes.{Put, record_of};
ghost use Rattle.table_log.specs.Tables.{Table};
ghost use Rattle.journal_lines.specs.Indexed.{HasNumber};
ghost use Rattle.module_core.specs.Stands.{Answers, HasDevice, assembly, setup_of};
ghost use Rattle.module_journal.specs.Heads.{stored_upto};
ghost use Rattle.module_journal.specs.Refusals.{IsAppendRefused, IsTruncateRefused};
ghost use Rattle.module_journal.specs.Writing.{IsMade};
ghost use Rattle.nv_session.specs.Coming.{ComesAlone};
ghost use Rattle.journal_reads.specs.Reading.{ReadsRecord};
ghost use Rattle.journal_load.specs.Lives.{HasArmed, HasDisarmed, HasSaved, HasWritten};

use arm_state::{Loss, WriteRefusal};
use channel_port::ChannelPort;
use energy_budget::Meter;
use journal_reads::{NotRead, get};
use journal_table::{CompactRefusal, JournalTable};
use line_memory::Write;
use module_core::Module;
use module_journal::{AppendRefusal, Appended, Journal, TruncateRefusal};
use nv_machine::{Accepted, Event, Reply, StepReply};
use save_device::SaveDevice;
use std::alloc::Global;
use thiserror::Error;

/// How often a channel is worked for one write.
const TURNS: u64 = 65_536;

/// How many turns a save may take.
const SAVE_TURNS: u64 = 1 << 20;

/// More energy than any save takes, in units.
const AMPLE: u64 = 1 << 62;

/// Why a life can't go on.
#[derive(Clone, Copy, Debug, PartialEq, Eq, Error)]
pub enum Stall {
    #[error("no such costs")]
    Costs,
    #[error("no such device")]
    Device,
    #[error("no room for a record")]
    Room,
    #[error("no such write")]
    Write,
    #[error("no save")]
    Save,
    #[error("not armed")]
    Arm,
    #[error("not there in time")]
    Turns,
}

/// A module with its device, its gauge and a journal.
#[derive(Drop)]
pub struct JournalLife<K: ChannelPort, D: SaveDevice> {
    running: Module<K>,
    journal: Journal,
    device: D,
    gauge: Meter,
    channels: u64,
    ghost counted: { channels ≡ (setup_of K.ChannelPort running).shape.channels },
    ghost sized: { HasDevice K.ChannelPort running (D.state device) },
}

impl<K: ChannelPort + Drop, D: SaveDevice + Drop> JournalLife<K, D> {
    /// A module that was opened on this device, and the journal in its memory.
    pub fn new(running: Module<K>, journal: Journal, device: D, channels: u64) -> JournalLife<K, D>
        requires channels { channels ≡ (setup_of K.ChannelPort running).shape.channels }
        requires size { HasDevice K.ChannelPort running (D.state device) }
        ensures running { result.running ≡ running }
        ensures journal { result.journal ≡ journal }
        ensures device { result.device ≡ device }
    {
        JournalLife {
            running,
            journal,
            device,
            gauge: Meter::with(AMPLE, 0),
            channels,
        }
    }

    /// The device, without the module.
    pub fn into_device(self) -> D
        ensures { result ≡ self.device }
    {
        self.device
    }

    /// The journal, to be asked which records are there.
    pub fn journal(&self) -> &Journal
        ensures { result.now ≡ self.now.journal }
    {
        &self.journal
    }

    /// How many writes the module accepted, and the number of those that are persistent.
    pub fn marks(&self) -> (u64, u64)
        ensures accepted { result.0 ≡ self.now.running.front.accepted }
        ensures mark { result.1 ≡ self.now.running.front.persisted }
    {
        (self.running.accepted(), self.running.mark())
    }

    /// The number up to which the module's mark tells all records stored.
    pub fn stored(&mut self) -> u64
        ensures { result ≡ stored_upto self.old.running.front.persisted
            self.old.journal.index self.old.journal.heads.items }
    {
        let mark = self.running.mark();
        self.journal.stored(mark)
    }

    /// Appends a record.
    pub fn append(&mut self, bytes: &[u8]) -> Result<Appended, AppendRefusal>
        ensures done { IfOk result (λ appended. IsMade K.ChannelPort
            (Reply.Write (Ok appended.head)) self.old.journal.index (Append bytes.now)
            self.old.running self.new.running) }
        ensures refused { IfErr result (λ refusal. IsAppendRefused K.ChannelPort refusal
            self.old.journal.index bytes.now self.old.running self.new.running) }
    {
        self.journal.append(&mut self.running, bytes)
    }

    /// A key of a table in this module, in place of its journal, gets a value.
    pub fn put(
        &mut self,
        alloc: Global,
        table: &mut JournalTable,
        key: &[u8],
        value: &[u8],
    ) -> Result<Appended, AppendRefusal>
        ensures done { IfOk result (λ appended. IsMade K.ChannelPort
            (Reply.Write (Ok appended.head)) table.old.journal.index
            (Append (record_of (Put key.now value.now))) self.old.running self.new.running) }
        ensures refused { IfErr result (λ refusal. IsAppendRefused K.ChannelPort refusal
            table.old.journal.index (record_of (Put key.now value.now))
            self.old.running self.new.running) }
    {
        table.put(alloc, &mut self.running, key, value)
    }

    /// The changes of a table in this module that count no more go.
    pub fn compact(
        &mut self,
        alloc: Global,
        table: &mut JournalTable,
    ) -> Result<Option<Accepted>, CompactRefusal>
        ensures { IfOk result (λ cut. (log : Log) (held : Table) → IsTableOf table.old log held
            → IsCompacted K.ChannelPort table.old.journal.index.lines log held table.new
            self.old.running self.new.running) }
    {
        table.compact(alloc, &mut self.running)
    }

    /// The bytes of a record by its number, read from the module as it is now; none where no such record is there.
    pub fn record(&mut self, alloc: Global, number: u64) -> Result<Option<Vec<u8>>, NotRead>
        ensures some { IfOk result (λ found. IfSome found (λ bytes. ComesAlone K.ChannelPort
            (ReadsRecord self.old.journal.index number bytes.items)
            self.old.running self.new.running)) }
        ensures none { IfOk result (λ found. IfNone found
            (HasNumber self.old.journal.index number → ⊥)) }
    {
        get(&self.journal, alloc, &mut self.running, number)
    }

    /// Cuts the records below a number.
    pub fn truncate(&mut self, upto: u64) -> Result<Option<Accepted>, TruncateRefusal>
        ensures done { IfOk result (λ cut. IfSome cut (λ head. IsMade K.ChannelPort
            (Reply.Write (Ok head)) self.old.journal.index (Truncate upto)
            self.old.running self.new.running)) }
        ensures none { IfOk result (λ cut. IfNone cut (upto ≡ self.old.journal.index.gone)) }
        ensures refused { IfErr result (λ refusal. IsTruncateRefused K.ChannelPort refusal
            self.old.journal.index upto self.old.running self.new.running) }
    {
        self.journal.truncate(&mut self.running, upto)
    }

    // Issues one command of a channel, where there is the channel and it has one.
    fn work(&mut self, channel: u64) -> bool {
        channel < self.channels && self.running.work(channel).is_some()
    }

    /// Makes a write by hand, and works the channel of its line, which the low part of the line names, while that is full.
    pub fn write(&mut self, write: Write) -> Result<Accepted, Stall>
        ensures { IfOk result (λ accepted.
            HasWritten K.ChannelPort write accepted self.new.running) }
    {
        for _turn in 0..TURNS {
            match self.running.write(write) {
                Ok(accepted) => return Ok(accepted),
                Err(WriteRefusal::Full) => {
                    // a channel that is full has a command
                    let _issued = self.work(write.line.checked_rem(self.channels).unwrap_or(0));
                }
                Err(_) => return Err(Stall::Write),
            }
        }
        Err(Stall::Turns)
    }

    /// Arms, with energy for any save.
    pub fn arm(&mut self) -> Result<(), Stall>
        ensures { OnOk result (HasArmed K.ChannelPort
            (assembly self.old.running (D.state self.old.device) (meter_gauge self.old.gauge))
            (assembly self.new.running (D.state self.new.device) (meter_gauge self.new.gauge))) }
    {
        match self.running.arm(&mut self.device, &mut self.gauge) {
            Ok(_) => Ok(()),
            Err(_) => Err(Stall::Arm),
        }
    }

    /// Begins to disarm; a save ends it.
    pub fn disarm(&mut self) -> Result<(), Stall>
        ensures { OnOk result (HasDisarmed K.ChannelPort self.old.running self.new.running) }
    {
        match self.running.disarm() {
            Ok(_) => Ok(()),
            Err(_) => Err(Stall::Arm),
        }
    }

    // One command of each channel that has one.
    fn work_each(&mut self) {
        for channel in 0..self.channels {
            // a channel may have no command at this turn
            let _issued = self.work(channel);
        }
    }

    // Makes a step of the save that runs; whether it was the last one.
    fn step(&mut self) -> Result<bool, Stall>
        ensures { IfOk result (λ last. IsTrue last → HasSaved K.ChannelPort
            (assembly self.new.running (D.state self.new.device) (meter_gauge self.new.gauge))) }
    {
        match self.running.save_step(&mut self.device, &mut self.gauge) {
            StepReply::Saved { .. } => Ok(true),
            StepReply::Did(_) | StepReply::Retry => Ok(false),
            StepReply::Waiting => {
                self.work_each();
                Ok(false)
            }
            _ => Err(Stall::Save),
        }
    }

    /// Makes the steps of the save that runs, up to the last one.
    pub fn finish_save(&mut self) -> Result<(), Stall>
        ensures { OnOk result (HasSaved K.ChannelPort
            (assembly self.new.running (D.state self.new.device) (meter_gauge self.new.gauge))) }
    {
        for _turn in 0..SAVE_TURNS {
            if self.step()? {
                return Ok(());
            }
        }
        Err(Stall::Turns)
    }

    /// A whole save.
    pub fn save(&mut self) -> Result<(), Stall>
        ensures { OnOk result (HasSaved K.ChannelPort
            (assembly self.new.running (D.state self.new.device) (meter_gauge self.new.gauge))) }
    {
        if self.running.save_begin().is_err() {
            return Err(Stall::Save);
        }
        self.finish_save()
    }

    /// Loses the mains.
    pub fn lose(&mut self) -> Loss
        ensures { Answers K.ChannelPort Event.Lose (Reply.Lose result)
            (assembly self.old.running (D.state self.old.device) (meter_gauge self.old.gauge))
            (assembly self.new.running (D.state self.new.device) (meter_gauge self.new.gauge)) }
    {
        self.running.power_loss(&mut self.device, &mut self.gauge)
    }
}
