// The forms by their names.
ghost use Rattle.std.specs.Prelude.{◌≡◌, ◌≢◌, codes, IfErr, IfOk, IfSome, IsNone, map};
ghost use Rattle.trace_forms.specs.Forms.{IsFormOf, IsFormOfColumns, IsNoForm, IsNoOrder, IsNoSlot, slot_name};
ghost use Rattle.trace_forms.specs.Words.{texts_of};
ghost use Rattle.trace_forms.specs.declared.naming.FormFault.TheVariants.{Memory, Name};

use crate::columns::{IN_ORDER, OF_ONE_CHANNEL, columns_of};
use crate::form::{ForeignForm, Separator};
use crate::part::Part;
use crate::words::words_of;
use std::alloc::{AllocError, Global};
use std::fmt;

/// Why a list names no columns.
#[derive(Clone, Copy, Debug, PartialEq, Eq)]
pub enum FormFault {
    /// It has a name that is no part's.
    Name,
    /// It names a part twice.
    Twice(Part),
    Memory,
}

impl fmt::Display for FormFault {
    fn fmt<W: fmt::Write>(&self, f: &mut fmt::Formatter<W>) -> fmt::Result {
        match *self {
            FormFault::Name => f.write_str(
                "columns are clock, command, channel, rank, group, bank, row and column, and - for one that is passed over",
            ),
            FormFault::Twice(part) => write!(f, "{} stands twice", part.name()),
            FormFault::Memory => f.write_str("memory"),
        }
    }
}

impl From<AllocError> for FormFault {
    ghost from_gives = { λ _ fault. fault ≡ Memory };

    fn from(_: AllocError) -> FormFault {
        FormFault::Memory
    }
}

// The part that a word of a list of columns names, or none for one that is passed over.
fn slot_of(word: &str) -> Result<Option<Part>, FormFault>
    ensures named { IfOk result (λ slot. slot_name slot ≡ word.now) }
    ensures none { IfErr result (λ why. (why ≡ Name) × IsNoSlot word.now) }
{
    if word == "-" {
        return Ok(None);
    }
    match Part::named(word) {
        Some(part) => Ok(Some(part)),
        None => Err(FormFault::Name),
    }
}

// The columns that words name.
#[tactic(auto, using(crate::proofs::Lines::one_more))]
fn slots_of(alloc: Global, words: &[&str]) -> Result<Vec<Option<Part>>, FormFault>
    ensures named { IfOk result (λ order. map slot_name order.items ≡ texts_of words.now) }
    ensures none { IfErr result (IsNoOrder (texts_of words.now)) }
{
    let mut order = Vec::new(alloc);
    for i in 0..words.len() {
        let slot = slot_of(words[i])?;
        if order.push(slot).is_err() {
            return Err(FormFault::Memory);
        }
    }
    Ok(order)
}

impl ForeignForm {
    /// The form of this name: `ramulator2`, `dramsim3` or `plain`.
    pub fn named(name: &str) -> Option<ForeignForm>
        ensures some { IfSome result (IsFormOf name.now) }
        ensures none { IsNone result → (name.now ≢ codes "ramulator2")
            × (name.now ≢ codes "dramsim3") × (name.now ≢ codes "plain") }
    {
        match name {
            "ramulator2" => Some(ForeignForm {
                columns: IN_ORDER,
                count: 8,
                separator: Separator::Commas,
                is_hex: false,
                wanted: "a line of ramulator2 is CLOCK, COMMAND, CHANNEL, RANK, GROUP, BANK, ROW, COLUMN, with a comma between two",
            }),
            "dramsim3" => Some(ForeignForm {
                columns: OF_ONE_CHANNEL,
                count: 8,
                separator: Separator::Spaces,
                is_hex: true,
                wanted: "a line of dramsim3 is CLOCK COMMAND CHANNEL RANK GROUP BANK ROW COLUMN, the last two behind 0x",
            }),
            "plain" => Some(ForeignForm {
                columns: IN_ORDER,
                count: 8,
                separator: Separator::Spaces,
                is_hex: false,
                wanted: "a plain line is CLOCK COMMAND CHANNEL RANK GROUP BANK ROW COLUMN, with spaces between two",
            }),
            _ => None,
        }
    }

    /// The form of a table with these columns, named in turn with a comma between two names; `-` is one that is passed over.
    #[tactic(auto, using(crate::proofs::Lines::no_order))]
    pub fn of_columns(alloc: Global, names: &str) -> Result<ForeignForm, FormFault>
        ensures form { IfOk result (IsFormOfColumns names.now) }
        ensures none { IfErr result (IsNoForm names.now) }
    {
        let words = words_of(alloc, names, true)?;
        let order = slots_of(alloc, &words)?;
        match columns_of(&order) {
            Ok(columns) => Ok(ForeignForm {
                columns,
                count: order.len(),
                separator: Separator::Either,
                is_hex: false,
                wanted: "a line has as many words as --columns names, with commas or with spaces between two",
            }),
            Err(part) => Err(FormFault::Twice(part)),
        }
    }
}
