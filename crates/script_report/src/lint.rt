// The bad lines of a script.
ghost use Rattle.std.specs.Prelude.{◌≡◌, ◌==◌, ◌<◌, [], length, get_or, All, IfOk, Ok, OnOk, Option, true, false};
ghost use Rattle.std.specs.Io.KnownBytes.{Appends};
ghost use Rattle.nv_profile.specs.Nothing.{HoldsOfNone};
ghost use Rattle.nv_script.specs.Texts.{ReadsAs, text_lines};
ghost use Rattle.nv_script.specs.Words.{texts_of};
ghost use Rattle.nv_script.specs.declared.line.ScriptLine.{ScriptLine};
ghost use Rattle.script_report.specs.BadLines.{AreBadLines};
ghost use Rattle.script_report.specs.Reasons.{bad_lines_text};

use crate::reason::{Reason, why_bad};
use ddr4_timing::timing::Geometry;
use nv_script::{MOST_SCRIPT_LINES, ScriptFault, read_script};
use std::alloc::{AllocError, Global};
use std::{fmt, io};

/// A line of a script that is none, by its number from 1 on. Shown as the number and the reason.
#[derive(Clone, Copy, Debug, PartialEq, Eq)]
pub struct BadLine<'t> {
    pub number: usize,
    pub reason: Reason<'t>,
}

impl fmt::Display for BadLine<'_> {
    ghost use Rattle.std.specs.Prelude.{Some};
    ghost use Rattle.script_report.specs.Reasons.{bad_line_text};

    ghost output = { λ line. Some (bad_line_text line) };

    #[tactic(auto, unfolding(crate::specs::Reasons::bad_line_text))]
    fn fmt<W: fmt::Write>(&self, f: &mut fmt::Formatter<W>) -> fmt::Result {
        write!(f, "script line {}: {}", self.number, self.reason)
    }
}

// Does a line that stands alone come to nothing that a script may have? One that is skipped isn't bad.
fn is_bad_line(alloc: Global, line: &[u8], geometry: &Geometry) -> Result<bool, AllocError>
    requires { All (λ byte. (byte == 10) ≡ false) line.now }
    ensures good { result ≡ Ok false
        → (read : Option ScriptLine) × ReadsAs geometry.now line.now read }
    ensures bad { result ≡ Ok true → HoldsOfNone (ReadsAs geometry.now line.now) }
{
    let fault = match read_script(alloc, line, geometry) {
        Ok(_lines) => return Ok(false),
        Err(fault) => fault,
    };
    if fault == ScriptFault::Memory {
        return Err(AllocError);
    }
    Ok(true)
}

// The text but for a newline at its end.
fn without_last_newline(script: &[u8]) -> &[u8]
    ensures { result.now ≡ Rattle.nv_script.specs.Texts.without_last_newline script.now }
{
    match script {
        [before @ .., b'\n'] => before,
        _ => script,
    }
}

// The lines of a text.
fn lines_of<'t>(alloc: Global, text: &'t [u8]) -> Result<Vec<&'t [u8]>, AllocError>
    ensures { IfOk result (λ lines. texts_of lines.items ≡ text_lines text.now) }
{
    without_last_newline(text)
        .split(|byte| *byte == b'\n')
        .collect(alloc)
}

fn line_at<'t>(lines: &[&'t [u8]], place: usize) -> &'t [u8]
    requires { place < length lines.now }
    ensures { result.now ≡ get_or (texts_of lines.now) place [] }
{
    lines[place]
}

/// The bad lines of a script for a module of this geometry, in their order: each that comes to nothing, and the first behind the
/// last that a script may have. Without any it is a script.
pub fn bad_lines<'t>(
    alloc: Global,
    script: &'t [u8],
    geometry: &Geometry,
) -> Result<Vec<BadLine<'t>>, AllocError>
    ensures { IfOk result (λ bad. AreBadLines geometry.now script.now bad.items) }
{
    let mut bad = Vec::new(alloc);
    let lines = lines_of(alloc, script)?;
    for place in 0..lines.len() {
        let number = place + 1;
        if place == MOST_SCRIPT_LINES {
            bad.push(BadLine {
                number,
                reason: Reason::TooMany,
            })?;
            return Ok(bad);
        }
        let line = line_at(&lines, place);
        if !is_bad_line(alloc, line, geometry)? {
            continue;
        }
        bad.push(BadLine {
            number,
            reason: why_bad(alloc, line, geometry)?,
        })?;
    }
    Ok(bad)
}

/// Writes bad lines in their order, each as a line: its number and its reason.
pub fn tell_bad_lines<W: io::Write>(bad: &[BadLine<'_>], writer: &mut W) -> io::Result<()>
    ensures { OnOk result (Appends (W.contents writer.old) (W.contents writer.new)
        (bad_lines_text bad.now)) }
{
    for line in bad {
        writeln!(writer, "{line}")?;
    }
    Ok(())
}
