// The words of a line, and the numbers that they write.
ghost use Rattle.std.specs.Prelude.{◌≡◌, ◌≤◌, ◌<◌, ◌^◌, ℕ, IfOk, IfSome, IsNone, true, false};
ghost use Rattle.trace_forms.specs.Words.{IsDigits, IsNumber, has_comma, texts_of, trimmed, words_of};

use std::alloc::{AllocError, Global};

/// Has a line a comma?
pub(crate) fn has_comma(line: &str) -> bool
    ensures { result ≡ has_comma line.now }
{
    line.as_bytes().contains(&b',')
}

/// A word without the white space around it.
pub(crate) fn trimmed(word: &str) -> &str
    ensures { result.now ≡ trimmed word.now }
{
    word.trim_ascii()
}

// What stands between commas.
fn between_commas(alloc: Global, line: &str) -> Result<Vec<&str>, AllocError>
    ensures { IfOk result (λ words. texts_of words.items ≡ words_of true line.now) }
{
    line.split(',').collect(alloc)
}

// What stands between spaces, where that is something.
fn between_spaces(alloc: Global, line: &str) -> Result<Vec<&str>, AllocError>
    ensures { IfOk result (λ words. texts_of words.items ≡ words_of false line.now) }
{
    line.split(' ')
        .filter(|word| !word.is_empty())
        .collect(alloc)
}

/// The words of a line: those between commas, or those between spaces.
pub fn words_of(alloc: Global, line: &str, has_commas: bool) -> Result<Vec<&str>, AllocError>
    ensures { IfOk result (λ words. texts_of words.items ≡ words_of has_commas line.now) }
{
    if has_commas {
        between_commas(alloc, line)
    } else {
        between_spaces(alloc, line)
    }
}

// The number that digits of a base write.
#[tactic(auto, using(crate::proofs::Lines::no_digits))]
fn digits(word: &str, base: u32) -> Option<u64>
    requires lower { 2 ≤ base }
    requires upper { base ≤ 36 }
    ensures some { IfSome result (IsDigits base word.now) }
    ensures none { IsNone result → (n : ℕ) → IsDigits base word.now n → 2 ^ 64 ≤ n }
{
    match u64::from_str_radix(word, base) {
        Ok(number) => Some(number),
        Err(_) => None,
    }
}

/// A number of 64 bits: decimal digits, or `0x` and digits of base 16 where these are wanted.
pub fn number(word: &str, is_hex: bool) -> Option<u64>
    ensures some { IfSome result (IsNumber is_hex word.now) }
    ensures none { IsNone result → (n : ℕ) → IsNumber is_hex word.now n → 2 ^ 64 ≤ n }
{
    if is_hex {
        digits(word.strip_prefix("0x")?, 16)
    } else {
        digits(word, 10)
    }
}
