// What is heard and said.
ghost use Rattle.std.specs.Prelude.{◌≡◌, ℕ, true, false, Bool, List, [], ◌∷◌, ◌++◌, IfErr, IfOk, OnOk, if◌then◌else◌};

use arm_state::Mode;
use nv_script::{Answer, ScriptLine};
use std::alloc::AllocError;
use std::fmt;
use thiserror::Error;

/// An answer to a line.
#[derive(Clone, Copy)]
pub struct Turn {
    pub asked: ScriptLine,
    pub answer: Answer,
}

/// Why a line that was heard asked for nothing. It is shown as its number and its name.
#[derive(Clone, Copy, Debug, PartialEq, Eq, Error)]
pub enum LineRefusal {
    /// It is no line of a script.
    #[error("1 Unreadable")]
    Unreadable,
    /// It is one that asks for nothing a life does: a format, a restore, a lie of the gauge, or a fault of the device.
    #[error("2 ScriptsAlone")]
    ScriptsAlone,
}

/// What is said, each in a line of its own.
#[derive(Clone, Copy)]
pub enum Said {
    /// What the life began with: `formatted`, or what was restored.
    Began(Answer),
    Answered(Turn),
    Refused(LineRefusal),
}

impl fmt::Display for Said {
    fn fmt<W: fmt::Write>(&self, f: &mut fmt::Formatter<W>) -> fmt::Result {
        match self {
            Said::Began(answer) => write!(f, "{answer}"),
            Said::Answered(turn) => write!(f, "{}", turn.answer),
            Said::Refused(refusal) => write!(f, "refused line {refusal}"),
        }
    }
}

/// Why nothing more is heard or said.
#[derive(Clone, Copy, Debug, PartialEq, Eq, Error)]
pub enum TalkFault {
    #[error("standard input can't be read")]
    Reader,
    #[error("standard output can't be written")]
    Writer,
    #[error("memory")]
    Memory,
}

impl From<AllocError> for TalkFault {
    fn from(_: AllocError) -> TalkFault {
        TalkFault::Memory
    }
}

/// Who is talked with, line by line. A line is heard only once all that was said before is out.
pub trait Talk {
    ghost use Rattle.live_store.specs.declared.talk.Said.{Said};

    /// The lines that were heard, without their newlines, the oldest first.
    ghost heard: { Self → List (List ℕ) };

    /// What was said, the oldest first.
    ghost said: { Self → List Said };

    /// Nothing that was said waits to be written.
    ghost is_out: { Self → Bool };

    /// The end was heard.
    ghost is_over: { Self → Bool };

    /// The next line, in place of what `line` has; false at the end. `mode` is what the module does with writes.
    fn hear(&mut self, mode: Mode, line: &mut Vec<u8>) -> Result<bool, TalkFault>
        requires { is_out self.old ≡ true }
        ensures line { IfOk result (λ some. heard self.new
            ≡ heard self.old ++ (if some then line.new.items ∷ [] else [])) }
        ensures over { IfOk result (λ some. some ≡ false → is_over self.new ≡ true) }
        ensures said { said self.new ≡ said self.old };

    /// Says this. Refused, it was not said, or only in part.
    fn say(&mut self, what: Said) -> Result<(), TalkFault>
        ensures taken { OnOk result (said self.new ≡ said self.old ++ what ∷ []) }
        ensures refused { IfErr result (λ fault. said self.new ≡ said self.old) }
        ensures heard { heard self.new ≡ heard self.old };

    /// Lets out what was said.
    fn flush(&mut self) -> Result<(), TalkFault>
        ensures out { OnOk result (is_out self.new ≡ true) }
        ensures said { said self.new ≡ said self.old }
        ensures heard { heard self.new ≡ heard self.old };
}
