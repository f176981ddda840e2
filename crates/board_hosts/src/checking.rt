// The check of receipts and answers against what is stored of a life.
ghost use Rattle.std.specs.Prelude.{◌≡◌, ◌≤◌, ◌+◌, ◌↔◌, All, Some, count_by, length, nat_lt, IfOk, IfErr, IfSome, IfNone, IsTrue};
ghost use Rattle.line_memory.specs.History.{Recorded};
ghost use Rattle.line_memory.specs.declared.Write.{Write};
ghost use Rattle.board_hosts.specs.Ending.{AreChecked, IsBorneOut, IsBorneOutOrPast, IsFirstStranger, IsFirstWithout, IsStranger, StandsIn, StandsOrIsPast, past_below, receipted};

use crate::host::Receipt;
use line_memory::{History, Write};
use worker_turns::Seen;

/// What a cut tells. The stored writes go from the number `from` on now, so that receipts with numbers below it and answers given
/// behind fewer writes need not be kept any more. So many receipts and answers were checked against the writes that were stored
/// until then, and so many were past: what they tell of had been cut off before.
#[derive(Clone, Copy, Debug, PartialEq, Eq)]
pub struct Cut {
    pub from: u64,
    pub checked: u64,
    pub past: u64,
}

/// A receipt, or an answer, that the history doesn't bear out, by its place.
#[derive(Clone, Copy, Debug, PartialEq, Eq)]
pub struct Stranger {
    pub answer: bool,
    pub index: usize,
}

// Whether a write was found, and is that of a receipt.
fn is_of(found: Option<Write>, receipt: &Receipt) -> bool
    ensures { IsTrue result ↔ (found ≡ Some (receipted receipt.now)) }
{
    match found {
        Some(write) => write.line == receipt.line && write.data == receipt.data,
        None => false,
    }
}

// Whether the write of a receipt stands in the history.
fn stands_in(history: &History, receipt: &Receipt) -> bool
    ensures { IsTrue result ↔ StandsIn history.now receipt.now }
{
    is_of(history.accepted_write(receipt.number), receipt)
}

// Whether an answer is its line after the writes before it.
#[tactic(auto, unfolding(crate::specs::Ending::IsBorneOut))]
fn is_borne_out(history: &History, answer: &Seen) -> bool
    ensures { IsTrue result ↔ IsBorneOut history.now answer.now }
{
    history.knows(answer.line, answer.at) && history.value_of(answer.line, answer.at) == answer.data
}

// The first receipt that doesn't stand in the history, and isn't past.
fn strange_receipt(history: &History, below: u64, receipts: &[Receipt]) -> Option<usize>
    ensures some { IfSome result (λ i.
        IsFirstWithout (StandsOrIsPast below history.now) receipts.now i) }
    ensures none { IfNone result (All (StandsOrIsPast below history.now) receipts.now) }
{
    receipts.iter().position(|receipt| receipt.number >= below && !stands_in(history, receipt))
}

// The first answer that the history doesn't bear out, and that isn't past.
fn strange_answer(history: &History, below: u64, answers: &[Seen]) -> Option<usize>
    ensures some { IfSome result (λ i.
        IsFirstWithout (IsBorneOutOrPast below history.now) answers.now i) }
    ensures none { IfNone result (All (IsBorneOutOrPast below history.now) answers.now) }
{
    answers.iter().position(|answer| answer.at >= below && !is_borne_out(history, answer))
}

// The first receipt, else the first answer, that a life doesn't bear out, and that isn't past.
fn find_stranger(
    history: &History,
    below: u64,
    receipts: &[Receipt],
    answers: &[Seen],
) -> Option<Stranger>
    ensures some { IfSome result (λ s.
        IsFirstStranger below history.now receipts.now answers.now s) }
    ensures receipts { IfNone result (All (StandsOrIsPast below history.now) receipts.now) }
    ensures answers { IfNone result (All (IsBorneOutOrPast below history.now) answers.now) }
{
    if let Some(index) = strange_receipt(history, below, receipts) {
        return Some(Stranger {
            answer: false,
            index,
        });
    }
    if let Some(index) = strange_answer(history, below, answers) {
        return Some(Stranger {
            answer: true,
            index,
        });
    }
    None
}

// How many receipts are past.
fn past_receipts(below: u64, receipts: &[Receipt]) -> usize
    ensures count { result ≡ count_by (λ r. nat_lt r.number below) receipts.now }
    ensures few { result ≤ length receipts.now }
{
    receipts
        .iter()
        .filter(|receipt| receipt.number < below)
        .count()
}

// How many answers are past.
fn past_answers(below: u64, answers: &[Seen]) -> usize
    ensures count { result ≡ count_by (λ a. nat_lt a.at below) answers.now }
    ensures few { result ≤ length answers.now }
{
    answers.iter().filter(|answer| answer.at < below).count()
}

// Below which number receipts and answers are past, of a life whose first write has the number `start`.
fn past_below(history: &History, start: u64) -> u64
    ensures { result ≡ past_below start history.now }
{
    let from = history.start();
    if start < from { from } else { 0 }
}

/// Checks receipts and answers against what is stored of a life whose first write has the number `start`. Those that are past are
/// counted, and not checked. A stranger among the others is named.
pub fn check(
    history: &History,
    start: u64,
    receipts: &[Receipt],
    answers: &[Seen],
) -> Result<Cut, Stranger>
    ensures checked { IfOk result (λ told.
        AreChecked start history.now receipts.now answers.now told) }
    ensures stranger { IfErr result (λ stranger.
        IsStranger start history.now receipts.now answers.now stranger) }
{
    let below = past_below(history, start);
    if let Some(stranger) = find_stranger(history, below, receipts, answers) {
        return Err(stranger);
    }
    let (past, seen) = (past_receipts(below, receipts), past_answers(below, answers));
    Ok(Cut {
        from: history.start(),
        checked: (receipts.len() - past) as u64 + (answers.len() - seen) as u64,
        past: past as u64 + seen as u64,
    })
}
