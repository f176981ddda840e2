// One look at each eligible request of a queue, which asks the clock of each bank and kind once.
ghost use Rattle.std.specs.Prelude.{◌≡◌, ℕ, ◌+◌, ◌<◌, ◌≤◌, ◌↔◌, List, All, IsTrue, length, replicate, slice_get, slice_index, Some, false};
ghost use Rattle.ddr4_timing.specs.Places.{LiesIn};
ghost use Rattle.ddr4_timing.specs.declared.command.Stamped.{Stamped};
ghost use Rattle.bank_core.specs.Stands.{Stands};
ghost use Rattle.request_notes.specs.declared.pending.Pending.{Pending};
ghost use Rattle.request_notes.specs.BankSets.{Has};
ghost use Rattle.frfcfs.specs.Keys.{AreKeysIn, IsKeyOf};
ghost use Rattle.request_notes.specs.KeyPlaces.{place_of};
ghost use Rattle.request_notes.specs.Requests.{IsEligible};
ghost use Rattle.frfcfs.specs.Candidates.{WantsRow};
ghost use Rattle.frfcfs.specs.Scan.{AreScanned, IsScanFound, flag_of};
ghost use Rattle.frfcfs.specs.Search.{AreAllBest, AreEnds, AreFound, IsBest, IsFound, Takes, TellsEligible, limit_of, no_bests};

use crate::best::{Best, Bests};
use crate::search::ends;
use bank_core::banks::Banks;
use request_notes::bank_set::BankSet;
use request_notes::key::Key;
use request_notes::pending::{Kind, Pending};

/// What the requests that were looked at say of the banks.
#[derive(Clone, Copy)]
pub(crate) struct Scan {
    /// The best RD or WR, and the best ACT.
    pub(crate) bests: Bests,
    /// Of each bank and kind, whether a request was met: its RD or WR was offered, or its ACT where the bank is closed.
    pub(crate) met: [bool; 128],
    /// The banks of which a request was met that wants another row than the one that is open there.
    pub(crate) wanting: BankSet,
    /// Of each of these, where the oldest such request stands.
    pub(crate) others: [usize; 64],
}

// Where the flag of a bank and a kind stands.
fn flag(bank: usize, kind: Kind) -> usize
    requires { bank < 64 }
    ensures { result ≡ flag_of bank kind }
{
    match kind {
        Kind::Read => 2 * bank,
        Kind::Write => 2 * bank + 1,
    }
}

impl Scan {
    // Before any request was looked at, in a span up to a last clock.
    fn none(last: u64) -> Scan
        ensures bests { result.bests ≡ no_bests (limit_of last) }
        ensures met { result.met ≡ replicate 128 false }
        ensures wanting { (bank : ℕ) → ¬ Has result.wanting bank }
    {
        Scan {
            bests: Bests::none(last.saturating_add(1)),
            met: [false; 128],
            wanting: BankSet::none(),
            others: [0; 64],
        }
    }

    // Looks at the eligible request at an index, by its key. It may have its command from now on and before its rank's end.
    fn look(&mut self, banks: &Banks, key: &Key, index: usize, now: u64, ends: &[u64; 4])
        requires { LiesIn banks.now.checked.geometry (place_of key.now) }
        ensures found { (pending : List Pending) (request : Pending) (limit : ℕ) →
            ((rank : ℕ) → slice_index ends.now rank ≤ limit) →
            IsEligible pending index request → IsKeyOf request key.now →
            LiesIn banks.now.checked.geometry request.place →
            IsScanFound banks.now.checked.geometry pending now limit self.old →
            IsScanFound banks.now.checked.geometry pending now limit self.new }
        ensures scanned { (list : List Stamped) (pending : List Pending) (request : Pending) →
            (last limit : ℕ) → Stands banks.now list
            → AreEnds banks.now.checked list last ends.now →
            ((rank : ℕ) → slice_index ends.now rank ≤ limit) →
            IsEligible pending index request → IsKeyOf request key.now →
            LiesIn banks.now.checked.geometry request.place →
            AreScanned banks.now.checked list pending now last limit index self.old →
            AreScanned banks.now.checked list pending now last limit (index + 1) self.new }
    {
        let bank = key.bank as usize;
        let mark = flag(bank, key.kind);
        if self.met[mark] {
            return;
        }
        let at = key.bank_address();
        match banks.open_row(at) {
            None => {
                let clock = banks.least_clock(key.act());
                self.bests
                    .row
                    .offer(index, clock.max(now), ends[at.rank as usize]);
                self.met[mark] = true;
            }
            Some(row) => {
                if row == key.row {
                    let clock = banks.least_clock(key.column());
                    self.bests
                        .column
                        .offer(index, clock.max(now), ends[at.rank as usize]);
                    self.met[mark] = true;
                } else if !self.wanting.has(bank) {
                    self.wanting.add(bank);
                    self.others[bank] = index;
                }
            }
        }
    }

    // Looks at each request, the first time. Is any eligible?
    fn look_at_each(
        &mut self,
        banks: &Banks,
        keys: &[Key],
        ends: &[u64; 4],
        now: u64,
        last: u64,
    ) -> bool
        requires bests { self.old.bests ≡ no_bests (limit_of last) }
        requires met { self.old.met ≡ replicate 128 false }
        requires wanting { (bank : ℕ) → ¬ Has self.old.wanting bank }
        requires lie { All (λ key. LiesIn banks.now.checked.geometry (place_of key)) keys.now }
        requires early { (rank : ℕ) → slice_index ends.now rank ≤ limit_of last }
        ensures any { (pending : List Pending)
            → AreKeysIn banks.now.checked.geometry pending keys.now →
            TellsEligible banks.now.checked.geometry pending result }
        ensures found { (pending : List Pending)
            → AreKeysIn banks.now.checked.geometry pending keys.now →
            IsScanFound banks.now.checked.geometry pending now (limit_of last) self.new }
        ensures scanned { (list : List Stamped) (pending : List Pending) → Stands banks.now list →
            AreEnds banks.now.checked list last ends.now →
            AreKeysIn banks.now.checked.geometry pending keys.now →
            AreScanned banks.now.checked list pending now last (limit_of last)
            (length pending) self.new }
    {
        let mut any = false;
        for (index, key) in keys.iter().enumerate() {
            if key.is_free() {
                any = true;
                self.look(banks, key, index, now, ends);
            }
        }
        any
    }

    // The best ACT or PRE, once each request was looked at.
    fn soonest_row(&self, banks: &Banks, pending: &[Pending], ends: &[u64; 4], now: u64) -> Best
        requires noted { (bank : ℕ) → Has self.now.wanting bank →
            slice_index self.now.others bank < length pending.now }
        requires places { (index : ℕ) (request : Pending)
            → slice_get pending.now index ≡ Some request →
            LiesIn banks.now.checked.geometry request.place }
        ensures found { (limit : ℕ) → ((rank : ℕ) → slice_index ends.now rank ≤ limit) →
            IsScanFound banks.now.checked.geometry pending.now now limit self.now →
            IsFound banks.now.checked.geometry pending.now now limit result }
        ensures best { (list : List Stamped) (last limit : ℕ) →
            Stands banks.now list → AreEnds banks.now.checked list last ends.now →
            ((rank : ℕ) → slice_index ends.now rank ≤ limit) →
            IsScanFound banks.now.checked.geometry pending.now now limit self.now →
            AreScanned banks.now.checked list pending.now now last limit
            (length pending.now) self.now →
            IsBest (Takes (WantsRow list pending.now) banks.now.checked list pending.now last)
            now limit (length pending.now) result }
    {
        let mut best = self.bests.row;
        let mut left = self.wanting;
        while let Some(bank) = left.take_one() {
            if !self.met[2 * bank] && !self.met[2 * bank + 1] {
                let index = self.others[bank];
                let request = &pending[index];
                let clock = banks.least_clock(request.pre());
                let end = ends[request.place.rank as usize];
                best.offer_older(index, clock.max(now), end);
            }
        }
        best
    }
}

/// The requests that may have their commands first, of each class, and whether any request is eligible.
#[derive(Clone, Copy)]
pub(crate) struct Soonest {
    pub(crate) bests: Bests,
    pub(crate) any: bool,
}

/// The requests that may have their commands first in a span, of those with a key each. It looks at each key once.
pub(crate) fn find_soonest(
    banks: &Banks,
    pending: &[Pending],
    keys: &[Key],
    now: u64,
    last: u64,
) -> Soonest
    requires { AreKeysIn banks.now.checked.geometry pending.now keys.now }
    ensures any { TellsEligible banks.now.checked.geometry pending.now result.any }
    ensures found { AreFound banks.now.checked.geometry pending.now now (limit_of last)
        result.bests }
    ensures best { (list : List Stamped) → Stands banks.now list →
        AreAllBest banks.now.checked list pending.now now last result.bests }
{
    let ends = ends(banks, last);
    let mut scan = Scan::none(last);
    let any = scan.look_at_each(banks, keys, &ends, now, last);
    let row = scan.soonest_row(banks, pending, &ends, now);
    Soonest {
        bests: Bests {
            column: scan.bests.column,
            row,
        },
        any,
    }
}
