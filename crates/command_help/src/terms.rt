// The words of answers, and what they mean.
ghost use Rattle.std.specs.Prelude.{◌≡◌, map, All, Contains, IfOk, IfSome, IsNone, OnOk};
ghost use Rattle.std.specs.Io.KnownBytes.{Appends};
ghost use Rattle.command_help.specs.Terms.{IsOf, known_words, words_text};

use std::alloc::{AllocError, Global};
use std::{fmt, io};

/// A word of answers, and what it means, in three lines. Shown as these lines.
#[derive(Clone, Copy, Debug, PartialEq, Eq)]
pub struct Term {
    pub word: &'static str,
    pub lines: [&'static str; 3],
}

impl fmt::Display for Term {
    ghost use Rattle.std.specs.Prelude.{Some};
    ghost use Rattle.command_help.specs.Terms.{term_text};

    ghost output = { λ term. Some (term_text term) };

    fn fmt<W: fmt::Write>(&self, f: &mut fmt::Formatter<W>) -> fmt::Result {
        let [first, second, third] = self.lines;
        write!(f, "{first}\n{second}\n{third}")
    }
}

/// The term of a word, where it is one of these.
pub fn explained<'t>(terms: &'t [Term], word: &str) -> Option<&'t Term>
    ensures some { IfSome result (λ term. IsOf word.now term.now × Contains terms.now term.now) }
    ensures none { IsNone result → All (λ term. ¬ IsOf word.now term) terms.now }
{
    terms.iter().find(|term| term.word == word)
}

/// The words of these terms, in their order.
pub fn term_words(alloc: Global, terms: &[Term]) -> Result<Vec<&'static str>, AllocError>
    ensures { IfOk result (λ words. words.items ≡ map (λ term. term.word) terms.now) }
{
    terms.iter().map(|term| term.word).collect(alloc)
}

/// Writes the words of these terms, each as a line.
pub fn write_terms<W: io::Write>(terms: &[Term], writer: &mut W) -> io::Result<()>
    ensures { OnOk result (Appends (W.contents writer.old) (W.contents writer.new)
        (words_text terms.now)) }
{
    for term in terms {
        writeln!(writer, "{}", term.word)?;
    }
    Ok(())
}

/// The terms: the verdicts of a restore, the modes, the refusals, and what is told of writes.
pub fn known_terms() -> &'static [Term]
    ensures { map (λ term. term.word.now) result.now ≡ known_words }
{
    TERMS
}

const TERMS: &[Term] = &[
    Term {
        word: "mark",
        lines: [
            "How many writes are persistent: all with a smaller number are.",
            "While the module is disarmed it counts those that its last save holds, while armed all accepted ones.",
            "It never falls within a life.",
        ],
    },
    Term {
        word: "persistent",
        lines: [
            "A persistent write is found by each later restore, whatever the power did meanwhile.",
            "That asks for an honest gauge, and for a device that doesn't fail in a closing save.",
            "The mark tells which writes are.",
        ],
    },
    Term {
        word: "Complete",
        lines: [
            "A restore's verdict: the image holds every write that was acknowledged persistent.",
            "It also may hold accepted writes that weren't persistent yet.",
            "Its count tells how many writes it holds, the oldest first.",
        ],
    },
    Term {
        word: "PossibleLoss",
        lines: [
            "A restore's verdict: the image was made while writes could be acknowledged behind it.",
            "So an acknowledged write may be missing, as after a closing save that came to no end.",
            "Its count tells how many writes it holds, the oldest first.",
        ],
    },
    Term {
        word: "none",
        lines: [
            "A mode: no life runs, so there is no module.",
            "So it is before the first format or restore, and after one that was refused.",
            "Begin a life with format or restore.",
        ],
    },
    Term {
        word: "disarmed",
        lines: [
            "A mode: writes are accepted, and those of the last finished save are persistent.",
            "A loss of mains saves nothing.",
            "Arm the module to have each accepted write persistent at once.",
        ],
    },
    Term {
        word: "armed",
        lines: [
            "A mode: each accepted write is persistent at once, since the energy for its save is there.",
            "A loss of mains drains the queues and saves what was accepted.",
            "A write for which the energy is too low is refused.",
        ],
    },
    Term {
        word: "disarming",
        lines: [
            "A mode: a save of all accepted writes runs, and at its end the module is disarmed.",
            "Writes are refused meanwhile, and all accepted ones are persistent.",
            "Go on with step or save.",
        ],
    },
    Term {
        word: "stranded",
        lines: [
            "A mode: the device failed in the save of a disarming.",
            "Writes are refused, and all accepted ones are persistent.",
            "Begin the save again with step or save.",
        ],
    },
    Term {
        word: "closing",
        lines: [
            "A mode: mains were lost, and not all accepted writes were saved.",
            "Nothing is accepted any more.",
            "Restore the device to begin the next life.",
        ],
    },
    Term {
        word: "saved",
        lines: [
            "A mode: mains were lost, and all accepted writes were saved.",
            "Nothing is accepted any more.",
            "Restore the device to begin the next life.",
        ],
    },
    Term {
        word: "Full",
        lines: [
            "A refusal: the channel's queue has no room for one more write, or for one more read.",
            "Commands of the channel make room.",
            "Work the channel, then ask again.",
        ],
    },
    Term {
        word: "EnergyLow",
        lines: [
            "A refusal of a write: while armed the gauge shows less than the save of one more write needs.",
            "The two numbers are the level that is needed and the last reading.",
            "Work the channels, so that fewer writes are pending, or wait for a higher level.",
        ],
    },
    Term {
        word: "Disarming",
        lines: [
            "A refusal: the module is disarming, or stranded at that.",
            "Its save holds all accepted writes, so none comes in meanwhile.",
            "Go on with step or save until it is disarmed.",
        ],
    },
    Term {
        word: "Closed",
        lines: [
            "A refusal: mains were lost, or no life runs.",
            "Nothing is accepted any more.",
            "Begin a life with format or restore.",
        ],
    },
    Term {
        word: "TrailFull",
        lines: [
            "A refusal of a write: the newest finished save lacks as many writes as the profile's trail allows.",
            "So no image may be further behind than that.",
            "Finish a save, then ask again.",
        ],
    },
    Term {
        word: "NoSuchLine",
        lines: [
            "A refusal: the module has no line of this number.",
            "Lines are numbered from 0.",
            "nvctl profile tells how many there are.",
        ],
    },
    Term {
        word: "NeedEnergy",
        lines: [
            "A refusal to arm: the gauge shows less than a save of the pending writes needs.",
            "The two numbers are the level that is needed and the reading.",
            "Work the channels, so that fewer writes are pending, or wait for a higher level.",
        ],
    },
    Term {
        word: "SaveRunning",
        lines: [
            "A refusal to arm: a save runs.",
            "The image that it makes isn't whole yet.",
            "Finish the save, then arm.",
        ],
    },
    Term {
        word: "Unsettled",
        lines: [
            "A refusal to arm: a call of the device failed, so what it holds isn't known.",
            "A save that comes to its end settles it.",
            "Save, then arm.",
        ],
    },
    Term {
        word: "Spent",
        lines: [
            "A refusal: the newest image has generation 2^62 or a greater one.",
            "Generations rise with each save, and this device has no more of them.",
            "Format the device to begin anew.",
        ],
    },
    Term {
        word: "Device",
        lines: [
            "A refusal: the device failed, in a restore or when the newest image was to be marked.",
            "Nothing is known of what a call wrote that failed.",
            "Try again, and look for another device where it fails again.",
        ],
    },
    Term {
        word: "NoImage",
        lines: [
            "A refusal to restore: neither slot of the device holds an image.",
            "It was never formatted, or its first save was stopped before its end.",
            "Format it to begin.",
        ],
    },
    Term {
        word: "Damaged",
        lines: [
            "A refusal to restore: a slot is open and holds no image, or both hold one generation.",
            "The number is that of the slot.",
            "A stop leaves no such slot: the bytes were changed otherwise.",
        ],
    },
    Term {
        word: "WrongSize",
        lines: [
            "A refusal to restore: the device isn't as long as a store of the module's lines.",
            "nvctl profile tells the bytes of a device.",
            "Use the profile that the store was made by.",
        ],
    },
    Term {
        word: "Memory",
        lines: [
            "A refusal to restore: there was no memory for the lines.",
            "The device is as it was.",
            "Try again where there is more.",
        ],
    },
];
