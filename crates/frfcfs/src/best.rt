// Which request of a list may have its command first.
ghost use Rattle.std.specs.Prelude.{◌≡◌, ℕ, ◌+◌, ◌≤◌, List, length};
ghost use Rattle.ddr4_timing.specs.Places.{HasBank, bank_at};
ghost use Rattle.ddr4_timing.specs.declared.command.Stamped.{Stamped};
ghost use Rattle.bank_core.specs.Stands.{Stands};
ghost use Rattle.request_notes.specs.declared.pending.Pending.{Pending};
ghost use Rattle.request_notes.specs.Requests.{IsEligible};
ghost use Rattle.frfcfs.specs.Scan.{IsOlderBetter};
ghost use Rattle.frfcfs.specs.Search.{AreBest, AreFound, AreHits, IsBetter, IsEnd, no_bests};

use bank_core::banks::Banks;
use request_notes::pending::Pending;

/// The first clock at which a request may have its command of one class, RD and WR or ACT and PRE, and the index of the
/// oldest request that may have it then. Where none may before a limit the clock is that limit.
#[derive(Clone, Copy)]
pub(crate) struct Best {
    pub(crate) clock: u64,
    pub(crate) index: usize,
}

impl Best {
    /// A younger request may have its command too, from a clock on and before an end.
    pub(crate) fn offer(&mut self, index: usize, from: u64, end: u64)
        ensures { IsBetter self.old index from end self.new }
    {
        if from < end && from < self.clock {
            *self = Best { clock: from, index };
        }
    }

    /// Another request may, be it older or younger.
    pub(crate) fn offer_older(&mut self, index: usize, from: u64, end: u64)
        ensures { IsOlderBetter self.old index from end self.new }
    {
        if from < end && (from < self.clock || from == self.clock && index < self.index) {
            *self = Best { clock: from, index };
        }
    }
}

/// The best of each class.
#[derive(Clone, Copy)]
pub(crate) struct Bests {
    /// RD or WR.
    pub(crate) column: Best,
    /// ACT or PRE.
    pub(crate) row: Best,
}

impl Bests {
    /// Before any request was looked at.
    pub(crate) fn none(limit: u64) -> Bests
        ensures { result ≡ no_bests limit }
    {
        let none = Best {
            clock: limit,
            index: 0,
        };
        Bests {
            column: none,
            row: none,
        }
    }

    /// Looks at the eligible request at an index, which may have its command from now on and before an end.
    pub(crate) fn look(
        &mut self,
        banks: &Banks,
        hits: &[bool; 64],
        request: &Pending,
        index: usize,
        now: u64,
        end: u64,
    )
        requires { HasBank banks.now.checked.geometry (bank_at request.now.place) }
        ensures found { (pending : List Pending) (limit : ℕ) → end ≤ limit →
            IsEligible pending index request.now →
            AreFound banks.now.checked.geometry pending now limit self.old →
            AreFound banks.now.checked.geometry pending now limit self.new }
        ensures best { (list : List Stamped) (pending : List Pending) (last limit : ℕ) →
            Stands banks.now list →
            AreHits banks.now.checked.geometry list pending (length pending) hits.now →
            IsEnd banks.now.checked list request.now.place.rank last end → end ≤ limit →
            IsEligible pending index request.now →
            AreBest banks.now.checked list pending now last limit index self.old →
            AreBest banks.now.checked list pending now last limit (index + 1) self.new }
    {
        let geometry = &banks.checked().geometry;
        let bank = request.place.bank_address();
        match banks.open_row(bank) {
            None => {
                if request.place.row < geometry.rows {
                    let clock = banks.least_clock(request.act());
                    self.row.offer(index, clock.max(now), end);
                }
            }
            Some(row) => {
                if row == request.place.row {
                    if request.place.column < geometry.columns {
                        let clock = banks.least_clock(request.column());
                        self.column.offer(index, clock.max(now), end);
                    }
                } else if !hits[bank.index(geometry)] {
                    let clock = banks.least_clock(request.pre());
                    self.row.offer(index, clock.max(now), end);
                }
            }
        }
    }
}
