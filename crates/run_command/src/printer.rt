// Answers, each written as a line.
ghost use Rattle.std.specs.Prelude.{◌≡◌, ◌∷◌, ◌++◌, [], IfErr, IfSome, OnOk};
ghost use Rattle.std.specs.Io.KnownBytes.{Appends};
ghost use Rattle.nv_script.specs.declared.reading.ScriptFault.TheVariants.{Writer};
ghost use Rattle.run_command.specs.Forms.{WritesMore, line_in};
ghost use Rattle.script_runner.specs.Story.{GivesOut, GoesOn};

use answer_json::{write_answer, write_line};
use ghost_trace::Trace;
use kept_trace::KeptTrace;
use nv_script::{Answer, ScriptFault};
use script_runner::Report;
use std::alloc::Global;
use std::io;

/// Writes each answer as a line: in its own words, or as an object. Both are made of what is told of it. It keeps the answers where
/// that is asked for.
#[derive(Drop)]
pub struct AnswerPrinter<'w, W: io::Write> {
    alloc: Global,
    is_json: bool,
    writer: &'w mut W,
    taken: KeptTrace<Answer>,
    refused: Trace<ScriptFault>,
}

impl<'w, W: io::Write> AnswerPrinter<'w, W> {
    /// A printer to which nothing was told.
    pub fn new(alloc: Global, is_json: bool, writer: &'w mut W) -> AnswerPrinter<'w, W>
        ensures answers { ⟦<AnswerPrinter<'w, W> as Report>⟧.answers result ≡ [] }
        ensures refusals { ⟦<AnswerPrinter<'w, W> as Report>⟧.refusals result ≡ [] }
        ensures form { result.is_json ≡ is_json }
        ensures same_reference { result.writer.ghost_name ≡ writer.entry.ghost_name }
        ensures writer { result.writer.now ≡ writer.old }
    {
        AnswerPrinter {
            alloc,
            is_json,
            writer,
            taken: KeptTrace::new(),
            refused: Trace::new(),
        }
    }

    /// Keeps the answers from now on, as far as there is memory for them; it has told none yet.
    pub fn keep(&mut self)
        requires { ⟦<AnswerPrinter<'w, W> as Report>⟧.answers self.old ≡ [] }
        ensures answers { ⟦<AnswerPrinter<'w, W> as Report>⟧.answers self.new ≡ [] }
        ensures form { self.new.is_json ≡ self.old.is_json }
        ensures writer { self.new.writer ≡ self.old.writer }
    {
        self.taken.keep(self.alloc);
    }

    /// The answers that were written, the oldest first; None where they weren't to be kept, or memory gave out.
    pub fn answers(&self) -> Option<&[Answer]>
        ensures { IfSome result (λ answers.
            answers.now ≡ ⟦<AnswerPrinter<'w, W> as Report>⟧.answers self.now) }
    {
        self.taken.kept()
    }

    /// The writer, as the answers left it.
    pub fn into_writer(self) -> &'w mut W
        ensures same_reference { result.ghost_name ≡ self.entry.writer.ghost_name }
        ensures writer { result.now ≡ self.entry.writer.now }
    {
        let AnswerPrinter { writer, .. } = self;
        writer
    }

    /// Writes out what its writer has taken.
    pub fn flush(&mut self) -> Result<(), ScriptFault>
        ensures answers { ⟦<AnswerPrinter<'w, W> as Report>⟧.answers self.new
            ≡ ⟦<AnswerPrinter<'w, W> as Report>⟧.answers self.old }
        ensures continued { GoesOn ⟦<AnswerPrinter<'w, W> as Report>⟧.continues
            self.old self.new }
        ensures fault { IfErr result (λ fault. fault ≡ Writer) }
    {
        match self.writer.flush() {
            Ok(()) => Ok(()),
            Err(_) => Err(ScriptFault::Writer),
        }
    }

    // Writes an answer in the form of its lines.
    fn write(&mut self, answer: &Answer) -> Result<(), ScriptFault>
        ensures written { OnOk result (Appends (W.contents self.old.writer.now)
            (W.contents self.new.writer.now)
            (line_in self.old.is_json answer.now ++ 10 ∷ [])) }
        ensures same_reference { self.new.writer.ghost_name ≡ self.old.writer.ghost_name }
        ensures form { self.new.is_json ≡ self.old.is_json }
        ensures taken { self.new.taken ≡ self.old.taken }
        ensures refused { self.new.refused ≡ self.old.refused }
        ensures fault { IfErr result GivesOut }
    {
        if self.is_json {
            write_answer(self.alloc, answer, self.writer)
        } else {
            write_line(self.alloc, answer, self.writer)
        }
    }
}

impl<'w, W: io::Write> Report for AnswerPrinter<'w, W> {
    ghost answers = { λ printer. printer.taken.items };

    ghost refusals = { λ printer. printer.refused.items };

    // over the same writer, which got the lines of all answers that were taken since
    ghost continues = { λ earlier printer.
        (printer.writer.ghost_name ≡ earlier.writer.ghost_name)
        × (printer.is_json ≡ earlier.is_json)
        × WritesMore earlier.is_json earlier.taken.items printer.taken.items
        (W.contents earlier.writer.now) (W.contents printer.writer.now) };

    fn answer(&mut self, answer: Answer) -> Result<(), ScriptFault> {
        match self.write(&answer) {
            Ok(()) => {
                self.taken.note(answer);
                Ok(())
            }
            Err(fault) => {
                self.refused.note(&fault);
                Err(fault)
            }
        }
    }
}
