// The records, and which of them a restore has brought back.
use crate::hosts::{Kept, NotKept};
use panguhero::{HostEnd, Line, Write};
use std::fmt;

/// How many records a host writes in a life.
pub(crate) const RECORDS: u64 = 8;

/// The lives of the example.
#[derive(Clone, Copy, Debug, PartialEq, Eq)]
pub(crate) enum Life {
    First,
    Second,
}

impl fmt::Display for Life {
    fn fmt<W: fmt::Write>(&self, f: &mut fmt::Formatter<W>) -> fmt::Result {
        match self {
            Life::First => f.write_str("life 1"),
            Life::Second => f.write_str("life 2"),
        }
    }
}

/// A record of a host: a line of its own, with the life, the host and the record's place in its first bytes.
pub(crate) fn record(life: Life, seat: usize, place: u64) -> Write {
    let seat = seat as u64 % 4;
    let place = place % RECORDS;
    let (first, letter) = match life {
        Life::First => (0, b'1'),
        Life::Second => (64, b'2'),
    };
    let mut data = [b'.'; 64];
    data[0] = letter;
    data[1] = b'0' + seat as u8;
    data[2] = b'0' + place as u8;
    Write {
        line: first + seat * RECORDS + place,
        data,
    }
}

/// How many records were told stored, and how many of them are there.
#[derive(Clone, Copy, Debug)]
pub(crate) struct Found {
    told: u64,
    there: u64,
}

impl fmt::Display for Found {
    fn fmt<W: fmt::Write>(&self, f: &mut fmt::Formatter<W>) -> fmt::Result {
        let Found { told, there } = *self;
        write!(
            f,
            "{there} of the {told} records that were told stored are there"
        )
    }
}

// Of one host: its first receipts are those of the records that it was told stored.
fn add_host(found: Found, host: &HostEnd<Result<Kept, NotKept>>, lines: &[Line]) -> Found {
    let Ok(Kept::Stored(stored)) = host.value else {
        return found;
    };
    let mut found = found;
    for receipt in host.receipts.iter().take(stored as usize) {
        found.told = found.told.saturating_add(1);
        if lines.get(receipt.line as usize) == Some(&receipt.data) {
            found.there = found.there.saturating_add(1);
        }
    }
    found
}

/// Looks for all records that hosts were told stored.
pub(crate) fn told_in(hosts: &[HostEnd<Result<Kept, NotKept>>], lines: &[Line]) -> Found {
    let mut found = Found { told: 0, there: 0 };
    for host in hosts {
        found = add_host(found, host, lines);
    }
    found
}
