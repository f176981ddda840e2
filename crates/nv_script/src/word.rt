// The words of a line.
ghost use Rattle.std.specs.Prelude.{IfOk, IfErr};
ghost use Rattle.nv_profile.specs.Nothing.{HoldsOfNone};
ghost use Rattle.nv_script.specs.Words.{IsNumber, IsOrdinal, IsByte, IsPick, IsFuse};

use hex::FromHex;
use save_device::Pick;

/// A word that can't be read.
#[derive(Drop)]
pub(crate) struct BadWord;

/// A number: decimal digits alone, that fit 64 bits.
pub(crate) fn number(word: &str) -> Result<u64, BadWord>
    ensures number { IfOk result (IsNumber word.now) }
    ensures none { IfErr result (λ bad. HoldsOfNone (IsNumber word.now)) }
{
    if !word.bytes().all(|byte| byte.is_ascii_digit()) {
        return Err(BadWord);
    }
    match word.parse() {
        Ok(number) => Ok(number),
        Err(_) => Err(BadWord),
    }
}

/// A number from 1 on.
pub(crate) fn ordinal(word: &str) -> Result<u64, BadWord>
    ensures ordinal { IfOk result (IsOrdinal word.now) }
    ensures none { IfErr result (λ bad. HoldsOfNone (IsOrdinal word.now)) }
{
    let number = number(word)?;
    if number > 0 { Ok(number) } else { Err(BadWord) }
}

/// A byte: two hexadecimal digits.
pub(crate) fn byte(word: &str) -> Result<u8, BadWord>
    ensures byte { IfOk result (IsByte word.now) }
    ensures none { IfErr result (λ bad. HoldsOfNone (IsByte word.now)) }
{
    match <[u8; 1] as FromHex>::from_hex(word) {
        Ok(bytes) => Ok(bytes[0]),
        Err(_) => Err(BadWord),
    }
}

/// What a stop leaves: `old`, `new`, or `torn` and a byte.
pub(crate) fn pick(word: &str) -> Result<Pick, BadWord>
    ensures pick { IfOk result (IsPick word.now) }
    ensures none { IfErr result (λ bad. HoldsOfNone (IsPick word.now)) }
{
    match word {
        "old" => Ok(Pick::Old),
        "new" => Ok(Pick::New),
        _ => {
            let torn = word.strip_prefix("torn").ok_or(BadWord)?;
            Ok(Pick::Torn(byte(torn)?))
        }
    }
}

/// The calls that a fuse passes: a number, or all by `off`.
pub(crate) fn fuse(word: &str) -> Result<Option<u64>, BadWord>
    ensures fuse { IfOk result (IsFuse word.now) }
    ensures none { IfErr result (λ bad. HoldsOfNone (IsFuse word.now)) }
{
    match word {
        "off" => Ok(None),
        _ => Ok(Some(number(word)?)),
    }
}
