// Which requests may be served, and which banks they hit.
ghost use Rattle.std.specs.Prelude.{◌≡◌, ℕ, ◌<◌, ◌↔◌, List, Some, IsTrue, length, slice_get};
ghost use Rattle.ddr4_timing.specs.Lawful.{open_row};
ghost use Rattle.ddr4_timing.specs.Places.{HasBank, bank_at};
ghost use Rattle.ddr4_timing.specs.declared.command.Stamped.{Stamped};
ghost use Rattle.bank_core.specs.Stands.{Stands};
ghost use Rattle.request_notes.specs.declared.pending.Pending.{Pending};
ghost use Rattle.request_notes.specs.Requests.{IsEligible, IsFirst};
ghost use Rattle.frfcfs.specs.Search.{AreHits, AreMarks, HasEligibleIn};

use bank_core::banks::Banks;
use ddr4_timing::timing::Geometry;
use request_notes::pending::Pending;

/// Whether no older request of the list names the request's line. It looks at each request of the list once at most.
pub(crate) fn is_first(pending: &[Pending], p: &Pending) -> bool
    ensures { IsTrue result ↔ IsFirst pending.now p.now }
{
    pending.iter().all(|q| q.seq >= p.seq || q.line != p.line)
}

/// Whether the request at a place of the list is eligible, and its bank one of the geometry. A mark spares the look at the
/// older ones.
pub(crate) fn is_eligible(
    geometry: &Geometry,
    pending: &[Pending],
    marks: &[bool],
    i: usize,
) -> bool
    requires within { i < length pending.now }
    requires marks { AreMarks geometry.now pending.now marks.now }
    ensures { (p : Pending) → slice_get pending.now i ≡ Some p →
        (IsTrue result ↔ (IsEligible pending.now i p × HasBank geometry.now (bank_at p.place))) }
{
    let p = &pending[i];
    let first = match marks.get(i) {
        Some(first) => *first,
        None => p.place.bank_address().lies_in(geometry) && is_first(pending, p),
    };
    first && !p.held
}

// Is the request's row open?
fn is_hit(banks: &Banks, p: &Pending) -> bool
    requires { HasBank banks.now.checked.geometry (bank_at p.now.place) }
    ensures { (list : List Stamped) → Stands banks.now list →
        (IsTrue result ↔ (open_row (bank_at p.now.place) list ≡ Some p.now.place.row)) }
{
    banks.open_row(p.place.bank_address()) == Some(p.place.row)
}

/// The banks whose open row an eligible request hits, and whether any request is eligible.
#[derive(Clone, Copy)]
pub(crate) struct Hits {
    pub(crate) banks: [bool; 64],
    pub(crate) any: bool,
}

/// It looks at each request once.
pub(crate) fn hit_banks(banks: &Banks, pending: &[Pending], marks: &[bool]) -> Hits
    requires { AreMarks banks.now.checked.geometry pending.now marks.now }
    ensures banks { (list : List Stamped) → Stands banks.now list →
        AreHits banks.now.checked.geometry list pending.now (length pending.now) result.banks }
    ensures any { IsTrue result.any ↔ HasEligibleIn banks.now.checked.geometry pending.now }
{
    let geometry = &banks.checked().geometry;
    let mut hit = [false; 64];
    let mut any = false;
    for (i, p) in pending.iter().enumerate() {
        if is_eligible(geometry, pending, marks, i) {
            any = true;
            if is_hit(banks, p) {
                hit[p.place.bank_address().index(geometry)] = true;
            }
        }
    }
    Hits { banks: hit, any }
}
