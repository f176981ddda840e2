//! The known word that another one is nearly.
#![tactic(auto)]

ghost use Rattle.std.specs.Prelude.{IfOk, IfSome};
ghost use Rattle.near_word.specs.Words.{IsOneOf};

use std::alloc::{AllocError, Global};
use strsim::osa_distance;

/// No word is nearly another one behind more edits.
const MOST_EDITS: usize = 2;

/// The first of the known words that fewest edits lead to: of a letter that is put in, left out or another one, and of two that
/// change places. None where it takes more than two, or as many as the word has letters.
pub fn near_word(
    alloc: Global,
    word: &str,
    known: &[&'static str],
) -> Result<Option<&'static str>, AllocError>
    ensures { IfOk result (λ near. IfSome near (IsOneOf known.now)) }
{
    let mut near = None;
    let mut fewest = MOST_EDITS
        .min(word.len().saturating_sub(1))
        .saturating_add(1);
    for name in known {
        let edits = osa_distance(alloc, word, name)?;
        if edits < fewest {
            near = Some(*name);
            fewest = edits;
        }
    }
    Ok(near)
}
