// The forms.
ghost use Rattle.std.specs.Prelude.{◌≡◌, ◌≢◌, ◌≤◌, ◌^◌, ℕ, IfOk, IfSome, IsNone, None, Some};
ghost use Rattle.std.specs.Option.{option_map};
ghost use Rattle.trace_forms.specs.Columns.{place_of};
ghost use Rattle.trace_forms.specs.Forms.{IsNumberOf, commas_in, is_hex_part, word_of, words_in};
ghost use Rattle.trace_forms.specs.Words.{texts_of};
ghost use Rattle.trace_forms.specs.declared.part.Part.TheVariants.{Channel};

use crate::columns::Columns;
use crate::part::Part;
use crate::words::{has_comma, number, trimmed, words_of};
use std::alloc::{AllocError, Global};

/// What stands between the words of a line.
#[derive(Clone, Copy, Debug, PartialEq, Eq)]
pub enum Separator {
    Commas,
    Spaces,
    /// Commas in a line that has one, and else spaces.
    Either,
}

/// A form in which others write the commands of a trace, one on each line. A part that a command has no use for may say anything.
#[derive(Clone, Copy, Debug, PartialEq, Eq)]
pub struct ForeignForm {
    pub(crate) columns: Columns,
    // how many words a line has
    pub(crate) count: usize,
    pub(crate) separator: Separator,
    // whether rows and columns are written with `0x`, in base 16
    pub(crate) is_hex: bool,
    // what a line is, in words
    pub(crate) wanted: &'static str,
}

impl Separator {
    // Do commas stand between the words of a line that has some, or none? None where the line isn't one of the form.
    fn has_commas(self, line: &str) -> Option<bool>
        ensures { result ≡ commas_in self line.now }
    {
        let has_commas = has_comma(line);
        match self {
            Separator::Commas => { if has_commas { Some(true) } else { None } }
            Separator::Spaces => { if has_commas { None } else { Some(false) } }
            Separator::Either => Some(has_commas),
        }
    }
}

impl ForeignForm {
    /// What a line of the form is, in words.
    pub fn wanted(&self) -> &'static str
        ensures { result ≡ self.now.wanted }
    {
        self.wanted
    }

    /// The column that has a part, where one has.
    pub fn place(&self, part: Part) -> Option<usize>
        ensures { result ≡ place_of self.now.columns part }
    {
        self.columns.place(part)
    }

    /// The words of a line of the form; none of a line that isn't one, by what stands between its words or how many they are.
    #[tactic(auto, using(crate::proofs::Lines::no_words, crate::proofs::Lines::line_words, crate::proofs::Lines::other_words))]
    pub fn words<'a>(
        &self,
        alloc: Global,
        line: &'a str,
    ) -> Result<Option<Vec<&'a str>>, AllocError>
        ensures { IfOk result (λ found.
            option_map (λ words. texts_of words.items) found ≡ words_in self.now line.now) }
    {
        let Some(has_commas) = self.separator.has_commas(line) else {
            return Ok(None);
        };
        let words = words_of(alloc, line, has_commas)?;
        if words.len() == self.count {
            Ok(Some(words))
        } else {
            Ok(None)
        }
    }

    /// The word of a part.
    #[tactic(auto, using(crate::proofs::Lines::no_place, crate::proofs::Lines::no_word_there, crate::proofs::Lines::word_there))]
    pub fn word<'a>(&self, words: &[&'a str], part: Part) -> Option<&'a str>
        ensures { option_map (λ word. word.now) result
            ≡ word_of self.now (texts_of words.now) part }
    {
        let place = self.columns.place(part)?;
        let word = words.get(place)?;
        Some(trimmed(word))
    }

    /// Is the number of the part written in base 16, behind `0x`?
    pub fn is_hex(&self, part: Part) -> bool
        ensures { result ≡ is_hex_part self.now part }
    {
        match part {
            Part::Row | Part::Column => self.is_hex,
            _ => false,
        }
    }

    /// The number of a part.
    #[tactic(auto, using(crate::proofs::Lines::no_number, crate::proofs::Lines::past_word, crate::proofs::Lines::word_number))]
    pub fn number(&self, words: &[&str], part: Part) -> Option<u64>
        ensures some { IfSome result (IsNumberOf self.now (texts_of words.now) part) }
        ensures none { IsNone result → (n : ℕ)
            → IsNumberOf self.now (texts_of words.now) part n → 2 ^ 64 ≤ n }
    {
        number(self.word(words, part)?, self.is_hex(part))
    }

    /// The number of the channel: 0 where no column says it.
    pub fn channel(&self, words: &[&str]) -> Option<u64>
        ensures said { place_of self.now.columns Channel ≢ None →
            IfSome result (IsNumberOf self.now (texts_of words.now) Channel) }
        ensures none { place_of self.now.columns Channel ≡ None → result ≡ Some 0 }
        ensures missing { IsNone result → (n : ℕ)
            → IsNumberOf self.now (texts_of words.now) Channel n → 2 ^ 64 ≤ n }
    {
        if self.columns.place(Part::Channel).is_none() {
            return Some(0);
        }
        self.number(words, Part::Channel)
    }
}
