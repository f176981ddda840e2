// The choice at a clock, and the next one.
ghost use Rattle.std.specs.Prelude.{◌≡◌, ℕ, ◌<◌, ◌≤◌, ◌^◌, ◌⊎◌, ◌↔◌, List, Some, None, All, IfSome, IsTrue};
ghost use Rattle.ddr4_timing.specs.Places.{LiesIn};
ghost use Rattle.ddr4_timing.specs.declared.command.Stamped.{Stamped};
ghost use Rattle.bank_core.specs.Stands.{Allows, Stands, with_command};
ghost use Rattle.request_notes.specs.Requests.{AreInOrder};
ghost use Rattle.frfcfs.specs.Candidates.{IsChoice, IsInLead};
ghost use Rattle.frfcfs.specs.Next.{IsNext, IsServable};
ghost use Rattle.frfcfs.specs.Margin.{IsIdle, KeepsMargin, last_clock};

use crate::hits::hit_banks;
use crate::queue::Queue;
use crate::search::{first_of, search};
use bank_core::banks::Banks;
use ddr4_timing::command::Command;
use request_notes::pending::Pending;

/// A command, the clock that it goes at, and the place in the list of the request whose RD or WR it is.
#[derive(Clone, Copy, Debug, PartialEq, Eq)]
pub struct Next {
    pub clock: u64,
    pub cmd: Command,
    pub serves: Option<usize>,
}

/// The choice at the clock: the least candidate in the order of first-ready, first-come-first-served scheduling
/// (FR-FCFS; Rixner and others, "Memory Access Scheduling", ISCA 2000), None exactly where there is no candidate.
///
/// Ranks in lead come first; then the RD or WR of an eligible request whose row is open; then ACT and PRE; of two requests
/// the older before. It takes no memory. It compares each two requests, to find which is the first of its line; a channel
/// keeps that, and calls `next_command`.
pub fn choose(banks: &Banks, pending: &[Pending], clock: u64) -> Option<Command>
    requires { AreInOrder pending.now }
    ensures { (list : List Stamped) → Stands banks.now list →
        IsChoice banks.now.checked list pending.now clock result }
{
    let hits = hit_banks(banks, pending, &[]);
    let next = search(banks, pending, &[], &hits, clock, clock)?;
    Some(next.cmd)
}

// Is a rank in lead at the clock?
fn is_in_lead(banks: &Banks, clock: u64) -> bool
    ensures { (list : List Stamped) → Stands banks.now list → (IsTrue result ↔
        ((rank : ℕ) × (rank < banks.now.checked.geometry.ranks)
        × IsInLead banks.now.checked.timing list clock rank)) }
{
    for rank in 0..banks.checked().geometry.ranks {
        if banks.lead_from(rank) <= clock {
            return true;
        }
    }
    false
}

// Is there work: a request that is eligible, as `any` says, or a rank in lead?
fn has_work(banks: &Banks, any: bool, clock: u64) -> bool
    ensures { (list : List Stamped) → Stands banks.now list → (IsTrue result ↔
        (((rank : ℕ) × (rank < banks.now.checked.geometry.ranks)
        × IsInLead banks.now.checked.timing list clock rank)
        ⊎ IsTrue any)) }
{
    any || is_in_lead(banks, clock)
}

/// The command that a channel sends next, where the last one went at the clock `now`, 0 before there is one.
///
/// None exactly where the channel is idle, and from clock 2^62 on. It is idle where no request is eligible and no rank is in
/// lead at the clock `now`, and where every rank had its SRE. Otherwise the answer is the choice at the first clock from
/// `now` on that has a candidate (first ready, first come: Rixner and others, "Memory Access Scheduling", ISCA 2000), and
/// each rank that is awake keeps the time for its refresh (JESD79-4, which lets a REF be put off by eight intervals).
///
/// The clauses on lists are on every list that the banks stand for, whose last command went at `now` and in which each rank
/// has its time. It takes no memory, and looks at each bank that has a request once; at each request too where `Queue::follow`
/// wasn't told of the rows that are open.
pub fn next_command(banks: &Banks, queue: &Queue, now: u64) -> Option<Next>
    requires { All (λ p. LiesIn banks.now.checked.geometry p.place) queue.now.requests }
    ensures early { IfSome result (λ next. next.clock < 2 ^ 63) }
    ensures from_now { IfSome result (λ next. now ≤ next.clock) }
    ensures serves { IfSome result (λ next. IfSome next.serves (IsServable queue.now.requests)) }
    ensures allows { IfSome result (λ next. Allows banks.now next.cmd next.clock) }
    ensures next { IfSome result (λ next. (list : List Stamped) → Stands banks.now list →
        IsNext banks.now.checked list queue.now.requests now (Some next)) }
    ensures idle { (list : List Stamped) → Stands banks.now list →
        KeepsMargin banks.now.checked list → now ≡ last_clock list →
        ((result ≡ None)
        ↔ (IsIdle banks.now.checked list queue.now.requests now ⊎ (2 ^ 62 ≤ now))) }
    ensures keeps { IfSome result (λ next. (list : List Stamped) → Stands banks.now list →
        KeepsMargin banks.now.checked list → now ≡ last_clock list →
        KeepsMargin banks.now.checked (with_command list next.clock next.cmd)) }
{
    if now >= 1 << 62 {
        return None;
    }
    let last = (1 << 63) - 1;
    let soonest = queue.soonest(banks, now, last);
    if !has_work(banks, soonest.any, now) {
        return None;
    }
    first_of(banks, queue.requests(), soonest.bests, now, last)
}
