// Why a line of a script is none.
use crate::verbs::{NAMES, Part, VERBS, Verb};
use ddr4_timing::timing::Geometry;
use interleave_map::Interleaving;
use near_word::near_word;
use nv_script::{MOST_LINE_BYTES, MOST_SCRIPT_LINES};
use std::alloc::{AllocError, Global};
use std::{fmt, str};

/// Why a line of a script is none. Shown in words, without an end of line.
#[derive(Clone, Copy, Debug, PartialEq, Eq)]
pub enum Reason<'t> {
    /// It is behind the last line that a script may have.
    TooMany,
    /// It has so many bytes.
    TooLong {
        bytes: usize,
    },
    /// A byte order mark stands at its beginning.
    Mark,
    /// It isn't UTF-8.
    NoText,
    /// A carriage return stands at its end.
    CarriageReturn,
    /// Words are separated by a tab.
    Tab,
    /// There is no such verb, but maybe one that is nearly it.
    Verb {
        verb: &'t str,
        near: Option<&'static str>,
    },
    /// The verb has other words behind it.
    Words {
        usage: &'static str,
    },
    Number {
        word: &'t str,
    },
    /// The number doesn't fit 64 bits.
    Large {
        word: &'t str,
    },
    Zero,
    Byte {
        word: &'t str,
    },
    Pick {
        word: &'t str,
    },
    Map {
        word: &'t str,
    },
    /// No channel has this number.
    Channel {
        channel: u64,
        channels: u64,
    },
    /// None of these.
    Other,
}

impl fmt::Display for Reason<'_> {
    ghost use Rattle.std.specs.Prelude.{Some};
    ghost use Rattle.script_report.specs.Reasons.{reason_text};

    ghost output = { λ reason. Some (reason_text reason) };

    fn fmt<W: fmt::Write>(&self, f: &mut fmt::Formatter<W>) -> fmt::Result {
        match *self {
            Reason::TooMany => write!(f, "a script has at most {MOST_SCRIPT_LINES} lines"),
            Reason::TooLong { bytes } => write!(
                f,
                "a line has at most {MOST_LINE_BYTES} bytes, here {bytes}"
            ),
            Reason::Mark => f.write_str(
                "a byte order mark stands at the beginning: leave it out with sed '1s/^\\xef\\xbb\\xbf//'",
            ),
            Reason::NoText => f.write_str("the line is not UTF-8"),
            Reason::CarriageReturn => f.write_str(
                "the line ends in a carriage return: convert it with sed 's/\\r$//'",
            ),
            Reason::Tab => f.write_str("a tab: words are separated by spaces"),
            Reason::Verb {
                verb,
                near: Some(near),
            } => write!(f, "unknown verb {verb}; {near}?"),
            Reason::Verb { verb, near: None } => write!(f, "unknown verb {verb}"),
            Reason::Words { usage } => write!(f, "the line is written {usage}"),
            Reason::Number { word } => write!(f, "a number is decimal digits: {word}"),
            Reason::Large { word } => write!(f, "a number fits 64 bits: {word}"),
            Reason::Zero => f.write_str("calls are counted from 1 on: 0"),
            Reason::Byte { word } => write!(f, "a byte is two hexadecimal digits: {word}"),
            Reason::Pick { word } => write!(
                f,
                "a pick is old, new, or torn and a byte, as torna5: {word}"
            ),
            Reason::Map { word } => write!(f, "a map is lines or xor: {word}"),
            Reason::Channel { channel, channels } => write!(
                f,
                "channel {channel}, and this profile has {channels}"
            ),
            Reason::Other => f.write_str("no line of a script"),
        }
    }
}

/// Why a line that is none isn't one, for a module of this geometry: the first reason that holds of it, from its beginning on.
pub fn why_bad<'t>(
    alloc: Global,
    line: &'t [u8],
    geometry: &Geometry,
) -> Result<Reason<'t>, AllocError> {
    if line.starts_with(b"\xef\xbb\xbf".as_slice()) {
        return Ok(Reason::Mark);
    }
    if line.len() > MOST_LINE_BYTES {
        return Ok(Reason::TooLong { bytes: line.len() });
    }
    let Ok(text) = str::from_utf8(line) else {
        return Ok(Reason::NoText);
    };
    if text.ends_with('\r') {
        return Ok(Reason::CarriageReturn);
    }
    if text.contains('\t') {
        return Ok(Reason::Tab);
    }
    let words: Vec<&'t str> = text
        .split(' ')
        .filter(|word| !word.is_empty())
        .collect(alloc)?;
    match words.split_first() {
        Some((verb, parts)) => why_of_words(alloc, verb, parts, geometry),
        None => Ok(Reason::Other),
    }
}

fn why_of_words<'t>(
    alloc: Global,
    name: &'t str,
    words: &[&'t str],
    geometry: &Geometry,
) -> Result<Reason<'t>, AllocError> {
    let Some(verb) = VERBS.iter().find(|verb| verb.name == name) else {
        let near = near_word(alloc, name, &NAMES)?;
        return Ok(Reason::Verb { verb: name, near });
    };
    Ok(why_of_parts(verb, words, geometry))
}

fn why_of_parts<'t>(verb: &Verb, words: &[&'t str], geometry: &Geometry) -> Reason<'t> {
    let is_short = words.len() < verb.parts.len() && !verb.is_shorter;
    if is_short || words.len() > verb.parts.len() {
        return Reason::Words { usage: verb.usage };
    }
    for (part, word) in verb.parts.iter().zip(words) {
        if let Some(why) = why_of_part(*part, word, geometry) {
            return why;
        }
    }
    Reason::Other
}

// Why a word isn't what stands there.
fn why_of_part<'t>(part: Part, word: &'t str, geometry: &Geometry) -> Option<Reason<'t>> {
    match part {
        Part::Number => number(word).err(),
        Part::Calls if word == "off" => None,
        Part::Calls => number(word).err(),
        Part::Ordinal => match number(word) {
            Ok(0) => Some(Reason::Zero),
            read => read.err(),
        },
        Part::Byte if is_byte(word) => None,
        Part::Byte => Some(Reason::Byte { word }),
        Part::Channel => match number(word) {
            Ok(channel) if channel >= geometry.channels => Some(Reason::Channel {
                channel,
                channels: geometry.channels,
            }),
            read => read.err(),
        },
        Part::Pick if is_pick(word) => None,
        Part::Pick => Some(Reason::Pick { word }),
        Part::Map if Interleaving::named(word).is_some() => None,
        Part::Map => Some(Reason::Map { word }),
    }
}

fn number(word: &str) -> Result<u64, Reason<'_>> {
    if word.is_empty() || !word.bytes().all(|byte| byte.is_ascii_digit()) {
        return Err(Reason::Number { word });
    }
    match word.parse() {
        Ok(number) => Ok(number),
        Err(_) => Err(Reason::Large { word }),
    }
}

fn is_byte(word: &str) -> bool {
    word.len() == 2 && word.bytes().all(|digit| digit.is_ascii_hexdigit())
}

fn is_pick(word: &str) -> bool {
    match word.strip_prefix("torn") {
        Some(byte) => is_byte(byte),
        None => word == "old" || word == "new",
    }
}
