// Where the answers to a script go.
ghost use Rattle.std.specs.Prelude.{◌≡◌, List, [], ◌∷◌, ◌++◌, OnOk, IfErr, ⊤};
ghost use Rattle.nv_script.specs.declared.answer.Answer.{Answer};
ghost use Rattle.nv_script.specs.declared.reading.ScriptFault.{ScriptFault};
ghost use Rattle.script_runner.specs.Story.{GivesOut, GoesOn};

use ghost_trace::Trace;
use nv_script::{Answer, ScriptFault};
use std::io;

/// What takes the answers to a script.
pub trait Report {
    /// The answers that were taken, the oldest first.
    ghost answers: { Self → List Answer };

    /// The faults by which answers were refused, the oldest first.
    ghost refusals: { Self → List ScriptFault };

    /// That it continues an earlier report, by what each answer that is taken leaves so.
    ghost continues: { Self → Self → Type 0 } = { λ _ _. ⊤ };

    /// Takes the next answer. Refused, it takes nothing: by `Writer` where it couldn't be written, by `Memory` for want of that.
    fn answer(&mut self, answer: Answer) -> Result<(), ScriptFault>
        ensures taken { OnOk result (answers self.new ≡ answers self.old ++ answer ∷ []) }
        ensures refused { IfErr result (λ fault. answers self.new ≡ answers self.old) }
        ensures unrefused { OnOk result (refusals self.new ≡ refusals self.old) }
        ensures continued { OnOk result (GoesOn continues self.old self.new) }
        ensures told { IfErr result (λ fault. refusals self.new ≡ refusals self.old ++ fault ∷ []) }
        ensures fault { IfErr result GivesOut };
}

/// Writes each answer as a line.
#[derive(Drop)]
pub struct Printer<'w, W: io::Write> {
    writer: &'w mut W,
    taken: Trace<Answer>,
    refused: Trace<ScriptFault>,
}

impl<'w, W: io::Write> Printer<'w, W> {
    /// A printer to which nothing was told.
    pub fn new(writer: &'w mut W) -> Printer<'w, W>
        ensures answers { ⟦<Printer<'w, W> as Report>⟧.answers result ≡ [] }
        ensures refusals { ⟦<Printer<'w, W> as Report>⟧.refusals result ≡ [] }
    {
        Printer {
            writer,
            taken: Trace::new(),
            refused: Trace::new(),
        }
    }
}

impl<'w, W: io::Write> Report for Printer<'w, W> {
    ghost answers = { λ printer. printer.taken.items };

    ghost refusals = { λ printer. printer.refused.items };

    fn answer(&mut self, answer: Answer) -> Result<(), ScriptFault> {
        match writeln!(self.writer, "{answer}") {
            Ok(()) => {
                self.taken.note(&answer);
                Ok(())
            }
            Err(_) => {
                let fault = ScriptFault::Writer;
                self.refused.note(&fault);
                Err(fault)
            }
        }
    }
}
