// One run of a script, and what a restore finds behind it.
ghost use Rattle.std.specs.Prelude.{◌≡◌, length};

use crate::ledger::{Ledger, Plain};
use crate::script::{Script, Step};
use channel_port::ChannelPort;
use interleave_map::ReadyMap;
use journal_load::{JournalLife, begin, capacity_of, formatted};
use line_memory::Line;
use module_journal::Journal;
use save_device::{Fuse, Pick, SaveDevice};
use slot_store::{Verdict, restore};
use std::alloc::Global;

/// What a trial came to.
#[derive(Clone, Copy)]
pub(crate) struct Judged {
    /// A call of the device failed.
    pub(crate) is_stopped: bool,
    pub(crate) is_complete: bool,
    pub(crate) is_right: bool,
    /// How many records were compared.
    pub(crate) records: u64,
}

// Records, each of another byte.
fn append<K: ChannelPort + Drop, D: SaveDevice + Drop>(
    life: &mut JournalLife<K, D>,
    ledger: &mut Ledger,
    alloc: Global,
    size: usize,
) -> anyhow::Result<()> {
    let byte = (ledger.len() % 251) as u8;
    let bytes = Vec::from_elem(alloc, byte, size)?;
    // a module that was stopped refuses, and so does one without room
    if let Ok(appended) = life.append(&bytes) {
        ledger.append(byte, size, appended.head.number)?;
    }
    Ok(())
}

// The oldest records go.
fn truncate<K: ChannelPort + Drop, D: SaveDevice + Drop>(
    life: &mut JournalLife<K, D>,
    ledger: &mut Ledger,
    count: u64,
) -> anyhow::Result<()> {
    let upto = life.journal().first().saturating_add(count);
    // a module that was stopped refuses
    if let Ok(Some(head)) = life.truncate(upto) {
        ledger.cut(upto, head.number)?;
    }
    Ok(())
}

// One step of a script. What the device refuses is seen by what a restore finds.
fn take<K: ChannelPort + Drop, D: SaveDevice + Drop>(
    life: &mut JournalLife<K, D>,
    ledger: &mut Ledger,
    alloc: Global,
    step: Step,
) -> anyhow::Result<()> {
    match step {
        Step::Append { count, size } => {
            for _record in 0..count {
                append(life, ledger, alloc, size)?;
            }
        }
        Step::Truncate { count } => truncate(life, ledger, count)?,
        Step::Save => {
            let _ended = life.save();
        }
        Step::Arm => {
            let _armed = life.arm();
        }
        Step::Disarm => {
            if life.disarm().is_ok() {
                let _ended = life.finish_save();
            }
        }
        Step::Lose => {
            let _loss = life.lose();
        }
    }
    let (_, mark) = life.marks();
    ledger.tell(mark);
    Ok(())
}

// Whether a journal has just these records.
fn is_same(alloc: Global, journal: &Journal, memory: &[Line], plain: &Plain) -> anyhow::Result<bool>
    requires { length memory.now ≡ journal.now.index.lines }
{
    if journal.first() != plain.first || journal.len() != plain.records.len() as u64 {
        return Ok(false);
    }
    for (number, (byte, size)) in journal.numbers().zip(plain.records.iter()) {
        let Some(bytes) = journal.record(alloc, memory, number)? else {
            return Ok(false);
        };
        if bytes.len() != *size || bytes.iter().any(|found| found != byte) {
            return Ok(false);
        }
    }
    Ok(true)
}

// Whether a journal is the list behind a first part of the calls, of which so many must be in it.
fn is_right(
    alloc: Global,
    journal: &Journal,
    memory: &[Line],
    ledger: &Ledger,
    least: usize,
) -> anyhow::Result<bool>
    requires { length memory.now ≡ journal.now.index.lines }
{
    for calls in least..=ledger.len() {
        if is_same(alloc, journal, memory, &ledger.behind(calls)?)? {
            return Ok(true);
        }
    }
    Ok(false)
}

/// A script over a device that passes so many calls, then a stop and a restore.
pub(crate) fn try_once(
    alloc: Global,
    map: &ReadyMap,
    script: &Script,
    passes: u64,
    pick: Pick,
) -> anyhow::Result<Judged> {
    let lines = capacity_of(&map.checked)?;
    let mut device = formatted(alloc, &map.checked)?;
    let restored = restore(alloc, &mut device, lines)?;
    let mut life = begin(alloc, map, restored, Fuse::new(device, passes))?;
    let mut ledger = Ledger::new(alloc);
    for step in script.steps {
        take(&mut life, &mut ledger, alloc, *step)?;
    }
    let fuse = life.into_device();
    let is_stopped = fuse.faults() > 0;
    let mut device = fuse.device;
    device.stop(pick);
    let restored = restore(alloc, &mut device, lines)?;
    let is_complete = matches!(restored.head.verdict, Verdict::Complete);
    let least = if is_complete { ledger.stored() } else { 0 };
    let journal = Journal::open(alloc, &restored.lines)?;
    Ok(Judged {
        is_stopped,
        is_complete,
        is_right: is_right(alloc, &journal, &restored.lines, &ledger, least)?,
        records: journal.len(),
    })
}
