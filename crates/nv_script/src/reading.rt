// Scripts from text.
ghost use Rattle.std.specs.Prelude.{◌≡◌, ◌≢◌, ◌<◌, Err, All, IfErr, IfOk};
ghost use Rattle.std.specs.Option.{ForSome};
ghost use Rattle.nv_script.specs.declared.reading.LineFault.TheVariants as line_faults;
ghost use Rattle.nv_script.specs.declared.reading.ScriptFault.TheVariants.{Memory};
ghost use Rattle.interleave_map.specs.Ready.{text_of};
ghost use Rattle.nv_profile.specs.Nothing.{HoldsOfNone};
ghost use Rattle.nv_script.specs.Line.{NamesChannelOf};
ghost use Rattle.nv_script.specs.Texts.{ReadsAs, IsRefusedBy, IsScript};
ghost use Rattle.nv_script.specs.Words.{IsNumber, SaysAlone, SaysLine, SaysWithOne, SaysWithTwo, texts_of, words_in};

use crate::line::ScriptLine;
use crate::word::{BadWord, byte, fuse, number, ordinal, pick};
use ddr4_timing::timing::Geometry;
use interleave_map::Interleaving;
use line_memory::{LINE_BYTES, Write};
use std::alloc::{AllocError, Global};
use std::str;
use thiserror::Error;

/// The most lines of a script, those that are skipped counted too.
pub const MOST_SCRIPT_LINES: usize = 4096;

/// The most bytes of a line, its newline not counted.
pub const MOST_LINE_BYTES: usize = 256;

/// No good script has as many bytes.
pub const SCRIPT_BYTES: u64 = (MOST_SCRIPT_LINES * (MOST_LINE_BYTES + 1) + 1) as u64;

/// Why a script came to no end. Shown as the program's error line, without the program's name.
#[derive(Clone, Copy, Debug, PartialEq, Eq, Error)]
pub enum ScriptFault {
    /// The first line that can't be read, counted from 1. No line of the script was run.
    #[error("script line {number}")]
    Line { number: usize },
    /// The writer failed. What it took before stays.
    #[error("file -")]
    Writer,
    /// A growth was refused memory.
    #[error("memory")]
    Memory,
}

impl From<AllocError> for ScriptFault {
    ghost from_gives = { λ _ fault. fault ≡ Memory };

    fn from(_: AllocError) -> ScriptFault {
        ScriptFault::Memory
    }
}

// Why a line gave no value.
#[derive(Drop)]
enum LineFault {
    Bad,
    Memory,
}

impl From<BadWord> for LineFault {
    fn from(_: BadWord) -> LineFault {
        LineFault::Bad
    }
}

impl From<AllocError> for LineFault {
    ghost from_gives = { λ _ fault. fault ≡ line_faults.Memory };

    fn from(_: AllocError) -> LineFault {
        LineFault::Memory
    }
}

/// Reads a whole script for a module of this geometry.
///
/// A line is a verb and its words, between them one or more spaces; a line of spaces alone is skipped, and so is one that
/// begins with `#`. Numbers are decimal digits and fit 64 bits. A byte is two hexadecimal digits. `Line` names the first
/// bad line, from 1 on; `Memory` is a growth that was refused.
pub fn read_script(
    alloc: Global,
    script: &[u8],
    geometry: &Geometry,
) -> Result<Vec<ScriptLine>, ScriptFault>
    ensures script { IfOk result (λ lines. IsScript geometry.now script.now lines.items) }
    ensures lines { IfOk result (λ lines. All (NamesChannelOf geometry.now) lines.items) }
    ensures refused { IfErr result (IsRefusedBy geometry.now script.now) }
    ensures fault { result ≢ Err ScriptFault.Writer }
{
    let mut lines = Vec::new(alloc);
    let text = without_last_newline(script);
    for (index, line) in text.split(|byte| *byte == b'\n').enumerate() {
        let number = index + 1;
        if number > MOST_SCRIPT_LINES {
            return Err(ScriptFault::Line { number });
        }
        match read_line(alloc, line, geometry) {
            Ok(Some(line)) => match lines.push(line) {
                Ok(()) => {}
                Err(_) => return Err(ScriptFault::Memory),
            },
            Ok(None) => {}
            Err(LineFault::Bad) => return Err(ScriptFault::Line { number }),
            Err(LineFault::Memory) => return Err(ScriptFault::Memory),
        }
    }
    Ok(lines)
}

/// The text but for a newline at its end.
pub(crate) fn without_last_newline(script: &[u8]) -> &[u8]
    ensures { result.now ≡ Rattle.nv_script.specs.Texts.without_last_newline script.now }
{
    match script {
        [before @ .., b'\n'] => before,
        _ => script,
    }
}

// The value of a line, if it isn't skipped.
fn read_line(
    alloc: Global,
    line: &[u8],
    geometry: &Geometry,
) -> Result<Option<ScriptLine>, LineFault>
    ensures comes { IfOk result (ReadsAs geometry.now line.now) }
    ensures names { IfOk result (λ line. ForSome line (NamesChannelOf geometry.now)) }
    ensures bad { result ≡ Err LineFault.Bad → HoldsOfNone (ReadsAs geometry.now line.now) }
{
    if line.len() > MOST_LINE_BYTES {
        return Err(LineFault::Bad);
    }
    let Ok(text) = str::from_utf8(line) else {
        return Err(LineFault::Bad);
    };
    if text.starts_with('#') {
        return Ok(None);
    }
    let words = words_of(alloc, text)?;
    if words.is_empty() {
        return Ok(None);
    }
    Ok(Some(line_of(&words, geometry)?))
}

// The words of a line.
fn words_of(alloc: Global, text: &str) -> Result<Vec<&str>, AllocError>
    ensures { IfOk result (λ words. texts_of words.items ≡ words_in text.now) }
{
    text.split(' ')
        .filter(|word| !word.is_empty())
        .collect(alloc)
}

// The line that words say.
fn line_of(words: &[&str], geometry: &Geometry) -> Result<ScriptLine, BadWord>
    ensures says { IfOk result (SaysLine geometry.now (texts_of words.now)) }
    ensures none { IfErr result (λ bad. HoldsOfNone (SaysLine geometry.now (texts_of words.now))) }
{
    match words {
        [verb] => line_alone(verb),
        [verb, word] => line_with_one(verb, word),
        [verb, first, second] => line_with_two(verb, first, second, geometry),
        _ => Err(BadWord),
    }
}

// The line that a word alone says.
fn line_alone(verb: &str) -> Result<ScriptLine, BadWord>
    ensures says { IfOk result (SaysAlone verb.now) }
    ensures none { IfErr result (λ bad. HoldsOfNone (SaysAlone verb.now)) }
{
    match verb {
        "format" => Ok(ScriptLine::Format),
        "arm" => Ok(ScriptLine::Arm),
        "disarm" => Ok(ScriptLine::Disarm),
        "save" => Ok(ScriptLine::Save),
        "step" => Ok(ScriptLine::Step),
        "lose" => Ok(ScriptLine::Lose),
        "restore" => Ok(ScriptLine::Restore {
            pick: None,
            map: None,
        }),
        "mark" => Ok(ScriptLine::Mark),
        _ => Err(BadWord),
    }
}

// With one word behind it.
fn line_with_one(verb: &str, word: &str) -> Result<ScriptLine, BadWord>
    ensures says { IfOk result (SaysWithOne verb.now word.now) }
    ensures none { IfErr result (λ bad. HoldsOfNone (SaysWithOne verb.now word.now)) }
{
    match verb {
        "read" => Ok(ScriptLine::Read {
            line: number(word)?,
        }),
        "sense" => Ok(ScriptLine::Sense {
            level: number(word)?,
        }),
        "lie" => Ok(ScriptLine::Lie {
            units: number(word)?,
        }),
        "fuse" => Ok(ScriptLine::Fuse { calls: fuse(word)? }),
        "onefault" => Ok(ScriptLine::OneFault {
            call: ordinal(word)?,
        }),
        "restore" => Ok(ScriptLine::Restore {
            pick: Some(pick(word)?),
            map: None,
        }),
        _ => Err(BadWord),
    }
}

// With two.
fn line_with_two(
    verb: &str,
    first: &str,
    second: &str,
    geometry: &Geometry,
) -> Result<ScriptLine, BadWord>
    ensures says { IfOk result (SaysWithTwo geometry.now verb.now first.now second.now) }
    ensures none { IfErr result (λ bad.
        HoldsOfNone (SaysWithTwo geometry.now verb.now first.now second.now)) }
{
    match verb {
        "write" => Ok(ScriptLine::Write(Write {
            line: number(first)?,
            data: [byte(second)?; LINE_BYTES],
        })),
        "work" => Ok(ScriptLine::Work {
            channel: channel_of(first, geometry)?,
            most: number(second)?,
        }),
        "restore" => Ok(ScriptLine::Restore {
            pick: Some(pick(first)?),
            map: Some(map_of(second)?),
        }),
        _ => Err(BadWord),
    }
}

// The map of a word.
fn map_of(word: &str) -> Result<Interleaving, BadWord>
    ensures named { IfOk result (λ map. word.now ≡ text_of map) }
    ensures none { IfErr result (λ bad. HoldsOfNone (λ map. word.now ≡ text_of map)) }
{
    Interleaving::named(word).ok_or(BadWord)
}

// A channel that is there.
fn channel_of(word: &str, geometry: &Geometry) -> Result<u64, BadWord>
    ensures channel { IfOk result (λ channel.
        IsNumber word.now channel × (channel < geometry.now.channels)) }
    ensures none { IfErr result (λ bad. HoldsOfNone (λ channel.
        IsNumber word.now channel × (channel < geometry.now.channels))) }
{
    let channel = number(word)?;
    if channel < geometry.channels {
        Ok(channel)
    } else {
        Err(BadWord)
    }
}
