// The plain list that a journal is compared with.
use std::alloc::{AllocError, Global};

/// A call that was done.
#[derive(Clone, Copy)]
enum Done {
    /// A record of so many bytes, each of them this one.
    Record { byte: u8, size: usize },
    /// The records below this number went.
    Cut { upto: u64 },
}

/// A call that was done, and the number of its head's write.
#[derive(Clone, Copy)]
struct DoneCall {
    done: Done,
    head: u64,
}

/// The records that a journal is to have: numbers from `first` on.
#[derive(Drop)]
pub(crate) struct Plain {
    pub(crate) first: u64,
    /// The byte and the size of each.
    pub(crate) records: Vec<(u8, usize)>,
}

/// All calls that were done, in their order, and the highest mark that was told.
#[derive(Drop)]
pub(crate) struct Ledger {
    alloc: Global,
    entries: Vec<DoneCall>,
    pub(crate) mark: u64,
}

impl Ledger {
    pub(crate) fn new(alloc: Global) -> Ledger {
        Ledger {
            alloc,
            entries: Vec::new(alloc),
            mark: 0,
        }
    }

    /// A record was appended; its head's write has this number.
    pub(crate) fn append(&mut self, byte: u8, size: usize, head: u64) -> Result<(), AllocError> {
        self.entries.push(DoneCall {
            done: Done::Record { byte, size },
            head,
        })?;
        Ok(())
    }

    /// The records below a number were cut.
    pub(crate) fn cut(&mut self, upto: u64, head: u64) -> Result<(), AllocError> {
        self.entries.push(DoneCall {
            done: Done::Cut { upto },
            head,
        })?;
        Ok(())
    }

    /// A mark was told.
    pub(crate) fn tell(&mut self, mark: u64) {
        self.mark = self.mark.max(mark);
    }

    /// How many calls were done.
    pub(crate) fn len(&self) -> usize {
        self.entries.len()
    }

    /// How many of them are told stored, the first ones.
    pub(crate) fn stored(&self) -> usize {
        self.entries
            .iter()
            .filter(|entry| entry.head < self.mark)
            .count()
    }

    /// The list behind the first calls.
    pub(crate) fn behind(&self, calls: usize) -> Result<Plain, AllocError> {
        let mut plain = Plain {
            first: 0,
            records: Vec::new(self.alloc),
        };
        for entry in self.entries.iter().take(calls) {
            match entry.done {
                Done::Record { byte, size } => plain.records.push((byte, size))?,
                Done::Cut { upto } => plain.cut(upto),
            }
        }
        Ok(plain)
    }
}

impl Plain {
    fn cut(&mut self, upto: u64) {
        for _record in self.first..upto {
            if !self.records.is_empty() {
                let _gone = self.records.remove(0);
            }
        }
        self.first = upto;
    }
}
