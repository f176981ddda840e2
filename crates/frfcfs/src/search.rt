// The search for the first clock of a span that has a candidate, and the choice there.
ghost use Rattle.std.specs.Prelude.{◌≡◌, ℕ, ◌+◌, ◌<◌, ◌≤◌, List, IfSome, None, length, slice_get, slice_index, Some};
ghost use Rattle.ddr4_timing.specs.declared.command.Command.{Command};
ghost use Rattle.ddr4_timing.specs.declared.command.Stamped.{Stamped};
ghost use Rattle.ddr4_timing.specs.Places.{HasBank, bank_at};
ghost use Rattle.bank_core.specs.Stands.{Stands};
ghost use Rattle.request_notes.specs.declared.pending.Pending.{Pending};
ghost use Rattle.request_notes.specs.Requests.{AreInOrder};
ghost use Rattle.frfcfs.specs.Candidates.{WantsRow};
ghost use Rattle.frfcfs.specs.Next.{IsNextIn, IsServable};
ghost use Rattle.frfcfs.specs.Search.{AreAllBest, AreAllBestInTurn, AreEnds, AreFound, AreFoundInTurn, AreHits, AreMarks, IsRankNext, IsSoonerOf, ServesNobodyIn, limit_of};

use crate::best::Bests;
use crate::hits::{Hits, is_eligible};
use crate::next::Next;
use bank_core::banks::Banks;
use ddr4_timing::command::Command;
use request_notes::pending::Pending;

/// For each rank the clock before which its requests may have their commands, in a span up to a last clock.
pub(crate) fn ends(banks: &Banks, last: u64) -> [u64; 4]
    ensures early { (rank : ℕ) → slice_index result rank ≤ limit_of last }
    ensures ends { (list : List Stamped) → Stands banks.now list →
        AreEnds banks.now.checked list last result }
{
    let mut ends = [0; 4];
    for rank in 0..banks.checked().geometry.ranks {
        ends[rank as usize] = if banks.is_asleep(rank) {
            0
        } else {
            banks.lead_from(rank).min(last.saturating_add(1))
        };
    }
    ends
}

// The eligible request that may have its command first in a span, of each class.
fn soonest_requests(
    banks: &Banks,
    pending: &[Pending],
    marks: &[bool],
    hits: &[bool; 64],
    now: u64,
    last: u64,
) -> Bests
    requires marks { AreMarks banks.now.checked.geometry pending.now marks.now }
    ensures found { AreFound banks.now.checked.geometry pending.now now (limit_of last) result }
    ensures best { (list : List Stamped) → Stands banks.now list →
        AreHits banks.now.checked.geometry list pending.now (length pending.now) hits.now →
        AreAllBest banks.now.checked list pending.now now last result }
{
    let ends = ends(banks, last);
    let geometry = &banks.checked().geometry;
    let mut bests = Bests::none(last.saturating_add(1));
    for (index, request) in pending.iter().enumerate() {
        if is_eligible(geometry, pending, marks, index) {
            let end = ends[request.place.rank as usize];
            bests.look(banks, hits, request, index, now, end);
        }
    }
    bests
}

// A request's ACT where its bank is closed, else its PRE.
fn row_command(banks: &Banks, request: &Pending) -> Command
    requires { HasBank banks.now.checked.geometry (bank_at request.now.place) }
    ensures { (list : List Stamped) (pending : List Pending) (cmd : Command) →
        Stands banks.now list →
        WantsRow list pending request.now cmd → result ≡ cmd }
{
    match banks.open_row(request.place.bank_address()) {
        None => request.act(),
        Some(_) => request.pre(),
    }
}

// A rank's REF, or the PREA before it, in a span.
fn rank_next(banks: &Banks, rank: u64, now: u64, last: u64) -> Option<Next>
    requires { rank < banks.now.checked.geometry.ranks }
    ensures span { IfSome result (ServesNobodyIn now last) }
    ensures next { (list : List Stamped) → Stands banks.now list →
        IsRankNext banks.now.checked list now last rank (rank + 1) result }
{
    let from = banks.lead_from(rank).max(now);
    if from > last || banks.is_asleep(rank) {
        return None;
    }
    let refresh = banks.refresh(rank);
    let clock = refresh.clock.max(from);
    if clock > banks.deadline(rank).min(last) {
        return None;
    }
    Some(Next {
        clock,
        cmd: refresh.cmd,
        serves: None,
    })
}

// The one of two that goes first, and the first of them where both go at one clock.
fn sooner(best: Option<Next>, other: Option<Next>) -> Option<Next>
    ensures { IsSoonerOf best other result }
{
    match (best, other) {
        (None, other) => other,
        (best, None) => best,
        (Some(x), Some(y)) => Some(if x.clock <= y.clock { x } else { y }),
    }
}

// The REF or PREA that goes first in a span.
fn soonest_rank(banks: &Banks, now: u64, last: u64) -> Option<Next>
    ensures span { IfSome result (ServesNobodyIn now last) }
    ensures next { (list : List Stamped) → Stands banks.now list →
        IsRankNext banks.now.checked list now last 0 banks.now.checked.geometry.ranks result }
{
    let mut best = None;
    for rank in 0..banks.checked().geometry.ranks {
        best = sooner(best, rank_next(banks, rank, now, last));
    }
    best
}

/// The first clock of a span that has a candidate, and the choice there; None exactly where no clock of it has one.
///
/// It never walks from clock to clock: of the ranks' commands and of the requests that may have theirs first, the soonest goes.
pub(crate) fn first_of(
    banks: &Banks,
    pending: &[Pending],
    bests: Bests,
    now: u64,
    last: u64,
) -> Option<Next>
    requires order { AreInOrder pending.now }
    requires found { AreFoundInTurn banks.now.checked.geometry pending.now now last bests }
    requires best { (list : List Stamped) → Stands banks.now list →
        AreAllBestInTurn banks.now.checked list pending.now now last bests }
    ensures span { IfSome result (λ next. (now ≤ next.clock) × (next.clock ≤ last)) }
    ensures serves { IfSome result (λ next. IfSome next.serves (IsServable pending.now)) }
    ensures next { (list : List Stamped) → Stands banks.now list →
        IsNextIn banks.now.checked list pending.now now last result }
{
    let Bests { column, row } = bests;
    let first = column.clock.min(row.clock);
    // a rank goes before all requests of its clock
    if let Some(next) = soonest_rank(banks, now, first.min(last)) {
        return Some(next);
    }
    if first >= last.saturating_add(1) {
        return None;
    }
    if column.clock <= row.clock {
        return Some(Next {
            clock: first,
            cmd: pending[column.index].column(),
            serves: Some(column.index),
        });
    }
    Some(Next {
        clock: first,
        cmd: row_command(banks, &pending[row.index]),
        serves: None,
    })
}

/// The same, where nothing is known of the requests. It finds the first clock of each request's next command once, from its
/// bank's and its rank's; it takes no memory, and looks at each request once.
pub(crate) fn search(
    banks: &Banks,
    pending: &[Pending],
    marks: &[bool],
    hits: &Hits,
    now: u64,
    last: u64,
) -> Option<Next>
    requires order { AreInOrder pending.now }
    requires marks { AreMarks banks.now.checked.geometry pending.now marks.now }
    requires hits { (list : List Stamped) → Stands banks.now list →
        AreHits banks.now.checked.geometry list pending.now (length pending.now) hits.now.banks }
    ensures span { IfSome result (λ next. (now ≤ next.clock) × (next.clock ≤ last)) }
    ensures serves { IfSome result (λ next. IfSome next.serves (IsServable pending.now)) }
    ensures next { (list : List Stamped) → Stands banks.now list →
        IsNextIn banks.now.checked list pending.now now last result }
{
    let bests = soonest_requests(banks, pending, marks, &hits.banks, now, last);
    first_of(banks, pending, bests, now, last)
}
