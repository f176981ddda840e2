// What the hosts of a life do.
use crate::records::{Life, RECORDS, record};
use panguhero::{
    ArmRefusal, BoardName, BoardUse, Host, HostEnd, Mains, MainsLost, MemoryDevice, Meter,
    MeteredBoard, PartsName, Receipt, Write, WriteRefusal,
};
use std::alloc::Global;
use std::sync::Wait;
use std::sync::atomic::{AtomicU64, Ordering};
use std::time::Clock;
use std::{fmt, thread};

/// How often a call is made again that finds a channel full or a save running.
const TRIES: u64 = 1 << 24;

/// The host that loses the mains. In the first life it waits for two others, in the second for all.
const LOSER: usize = 3;

/// What a host came to: how many of its records it was told stored, which are those of its first receipts; or that it lost the mains.
#[derive(Clone, Copy, Debug)]
pub(crate) enum Kept {
    Stored(u64),
    LostMains,
}

impl fmt::Display for Kept {
    fn fmt<W: fmt::Write>(&self, f: &mut fmt::Formatter<W>) -> fmt::Result {
        match self {
            Kept::Stored(stored) => write!(f, "{stored} records told stored"),
            Kept::LostMains => f.write_str("the mains are lost"),
        }
    }
}

/// Why a host gave up.
#[derive(Clone, Copy, Debug)]
pub(crate) enum NotKept {
    /// There was no memory for its receipts.
    Memory,
    /// Arming was refused.
    Refused(ArmRefusal),
}

/// The hosts of a life, and how many of them are done.
#[derive(Drop)]
pub(crate) struct Hosts {
    life: Life,
    done: AtomicU64,
}

// Writes a record; where its channel is full the write is made again.
fn write<B, R>(
    rt: &R,
    board: &MeteredBoard<'_, B>,
    host: &mut Host<B>,
    write: Write,
) -> Result<Receipt, WriteRefusal>
where
    B: BoardName + PartsName,
    R: Wait,
{
    for _ in 0..TRIES {
        match board.write(rt, host, write) {
            Err(WriteRefusal::Full) => thread::yield_now(),
            other => return other,
        }
    }
    Err(WriteRefusal::Full)
}

// Arms; where a save runs it is tried again.
fn arm<B, R>(rt: &R, board: &MeteredBoard<'_, B>) -> Result<(), ArmRefusal>
where
    B: BoardName + PartsName,
    R: Wait,
{
    for _ in 0..TRIES {
        match board.arm(rt) {
            Ok(_) => return Ok(()),
            Err(ArmRefusal::SaveRunning) => thread::yield_now(),
            Err(refusal) => return Err(refusal),
        }
    }
    Err(ArmRefusal::SaveRunning)
}

// A receipt of the first life's: bad input, which the end of the second one names.
fn stranger() -> Receipt {
    let Write { line, data } = record(Life::First, 0, 0);
    Receipt {
        number: 0,
        line,
        data,
    }
}

impl Hosts {
    /// Those of a life, before any is done.
    pub(crate) fn of(life: Life) -> Hosts {
        Hosts {
            life,
            done: AtomicU64::new(0),
        }
    }

    // Writes records, and waits for each where the host is to. A loss of mains ends it.
    fn keep<B, R>(
        &self,
        rt: &R,
        board: &MeteredBoard<'_, B>,
        host: &mut Host<B>,
        seat: usize,
        waits: bool,
        receipts: &mut Vec<Receipt>,
    ) -> Result<Kept, NotKept>
    where
        B: BoardName + PartsName,
        R: Wait + Clock,
    {
        let mut stored = 0;
        for place in 0..RECORDS {
            let Ok(receipt) = write(rt, board, host, record(self.life, seat, place)) else {
                break;
            };
            if receipts.push(receipt).is_err() {
                return Err(NotKept::Memory);
            }
            if waits {
                match board.await_persistent(rt, host, &receipt) {
                    Ok(_) => stored = place + 1,
                    Err(MainsLost { .. }) => break,
                }
            }
        }
        Ok(Kept::Stored(stored))
    }

    // Arms in the second life, and waits until as many hosts are done as are to be.
    fn await_others<B, R>(&self, rt: &R, board: &MeteredBoard<'_, B>) -> Result<Kept, NotKept>
    where
        B: BoardName + PartsName,
        R: Wait,
    {
        let awaited = match self.life {
            Life::First => 2,
            Life::Second => 3,
        };
        if self.life == Life::Second {
            arm(rt, board).map_err(NotKept::Refused)?;
        }
        for _ in rt.forever() {
            if self.done.load(Ordering::SeqCst) >= awaited {
                break;
            }
            thread::yield_now();
        }
        Ok(Kept::LostMains)
    }
}

impl BoardUse<MemoryDevice, Meter> for Hosts {
    type Value = Result<Kept, NotKept>;

    fn host<'m, B, R>(
        &self,
        rt: &R,
        alloc: Global,
        board: &MeteredBoard<'m, B>,
        mains: &Mains,
        host: &mut Host<B>,
        seat: usize,
    ) -> HostEnd<Result<Kept, NotKept>>
    where
        B: BoardName + PartsName,
        R: Wait + Clock,
    {
        if seat == LOSER {
            let ready = self.await_others(rt, board);
            mains.lose(rt);
            return HostEnd::unchecked(alloc, ready);
        }
        let waits = seat < 2 || self.life == Life::Second;
        let mut end = HostEnd::unchecked(alloc, Ok(Kept::Stored(0)));
        end.value = self.keep(rt, board, host, seat, waits, &mut end.receipts);
        if self.life == Life::Second && seat == 0 && end.receipts.push(stranger()).is_err() {
            end.value = Err(NotKept::Memory);
        }
        if waits {
            self.done.fetch_add(1, Ordering::SeqCst);
        }
        end
    }
}
