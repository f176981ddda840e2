// What the program tells of itself.
ghost use Rattle.std.specs.Prelude.{◌≡◌, ◌↔◌, ℕ, List, Option, Some, codes, option_map, IfErr, IfOk, IfSome, OnOk};
ghost use Rattle.std.specs.Io.KnownBytes.{Appends};
ghost use Rattle.std.specs.Process.{exit_status};
ghost use Rattle.clap.specs.Words.{first_value, found_of};
ghost use Rattle.command_faults.specs.Exit.{IsOfOutput};
ghost use Rattle.command_faults.specs.declared.fault.ProgramFault.TheVariants.{NoTerm};
ghost use Rattle.command_help.specs.declared.completions.Shell.TheVariants.{Fish, Zsh};
ghost use Rattle.command_line.specs.Help.{IsUntold, NamesOne, TellsNear, TellsWord, term_line, version_text};

use clap::ArgMatches;
use command_faults::{Failure, ProgramFault, Reason, flush};
use command_help::{
    Shell, Term, build_words, explained, term_words, write_completions, write_terms,
};
use near_word::near_word;
use std::alloc::{AllocError, Global};
use std::io::{self, Write};
use std::process::ExitCode;
use std::rt::Files;

/// Explains the word that the words name by its term, or without one names those that may be asked for.
pub(crate) fn explain_word<'a, R, W>(
    rt: &R,
    terms: &[Term],
    matches: &ArgMatches<'a>,
    writer: &mut W,
) -> Result<ExitCode, Failure<'a>>
where
    R: AllocGlobal,
    W: Write,
    ensures told { IfOk result (λ code. (exit_status code ≡ 0)
        × TellsWord terms.now (first_value (found_of matches.now) (codes "WORD"))
        (W.contents writer.old) (W.contents writer.new)) }
    ensures untold { IfErr result (λ failure. IsUntold terms.now
        (first_value (found_of matches.now) (codes "WORD")) failure.fault) }
{
    write_explained(rt.alloc(), terms, matches.get_str("WORD"), writer)?;
    flush(writer)?;
    Ok(ExitCode::SUCCESS)
}

/// Writes what a word means by the term of it, or without a word those of all terms, each as a line. A word without a term is a
/// fault, with one that it nearly is for its reason.
pub fn write_explained<'a, W: Write>(
    alloc: Global,
    terms: &[Term],
    word: Option<&'a str>,
    writer: &mut W,
) -> Result<(), Failure<'a>>
    ensures told { OnOk result (TellsWord terms.now (option_map (λ word. word.now) word.entry)
        (W.contents writer.old) (W.contents writer.new)) }
    ensures untold { IfErr result (λ failure. IsUntold terms.now
        (option_map (λ word. word.now) word.entry) failure.fault) }
{
    let Some(word) = word else {
        return match write_terms(terms, writer) {
            Ok(()) => Ok(()),
            Err(_) => Err(Failure::from(ProgramFault::File("-"))),
        };
    };
    match explained(terms, word) {
        Some(term) => write_term(term, writer),
        None => Err(no_term(alloc, terms, word)?),
    }
}

// Writes what a term says, and a newline.
fn write_term<'a, W: Write>(term: &Term, writer: &mut W) -> Result<(), Failure<'a>>
    ensures told { OnOk result (Appends (W.contents writer.old) (W.contents writer.new)
        (term_line term.now)) }
    ensures output { IfErr result (λ failure. IsOfOutput failure.fault) }
{
    if writeln!(writer, "{term}").is_err() {
        return Err(Failure::from(ProgramFault::File("-")));
    }
    Ok(())
}

// The reason that tells of a near word. Without memory for it there is none.
fn told_near(alloc: Global, near: &str) -> Option<Reason>
    ensures { IfSome result (TellsNear near.now) }
{
    match format!(in alloc; "{near}?") {
        Ok(text) => Some(Reason::Told(text)),
        Err(_) => None,
    }
}

// The reason behind a word that has no term: one that it nearly is, or where all words are named.
fn why_no_term(alloc: Global, terms: &[Term], word: &str) -> Result<Option<Reason>, AllocError>
    ensures { IfOk result (λ reason. IfSome reason (NamesOne terms.now)) }
{
    let words = term_words(alloc, terms)?;
    match near_word(alloc, word, &words)? {
        Some(near) => Ok(told_near(alloc, near)),
        None => Ok(Some(Reason::Known("nvctl explain names those that there are"))),
    }
}

// A word that isn't explained, but maybe is nearly one that is.
fn no_term<'a>(alloc: Global, terms: &[Term], word: &'a str) -> Result<Failure<'a>, AllocError>
    ensures fault { IfOk result (λ failure. failure.fault ≡ NoTerm word.entry) }
    ensures near { IfOk result (λ failure. IfSome failure.reason (NamesOne terms.now)) }
{
    let reason = why_no_term(alloc, terms, word)?;
    Ok(Failure {
        fault: ProgramFault::NoTerm(word),
        reason,
    })
}

// The shell that the words name, which is bash where they name none.
fn shell_of(matches: &ArgMatches<'_>) -> Shell
    ensures zsh { (result ≡ Zsh)
        ↔ (first_value (found_of matches.now) (codes "SHELL") ≡ Some (codes "zsh")) }
    ensures fish { (result ≡ Fish)
        ↔ (first_value (found_of matches.now) (codes "SHELL") ≡ Some (codes "fish")) }
{
    matches
        .get_str("SHELL")
        .and_then(Shell::named)
        .unwrap_or(Shell::Bash)
}

/// Writes the completions of the shell that the words name.
pub(crate) fn complete<'a, W: Write>(
    matches: &ArgMatches<'a>,
    writer: &mut W,
) -> Result<ExitCode, Failure<'a>>
    ensures written { IfOk result (λ code. exit_status code ≡ 0) }
    ensures fault { IfErr result (λ failure. IsOfOutput failure.fault) }
{
    if write_completions(shell_of(matches), writer).is_err() {
        return Err(Failure::from(ProgramFault::File("-")));
    }
    flush(writer)?;
    Ok(ExitCode::SUCCESS)
}

/// Tells the program's version, the commit that it was built of, and whether it was proved, as far as a note beside it says.
pub(crate) fn tell_version<'a, R, W>(
    rt: &R,
    version: &str,
    writer: &mut W,
) -> Result<ExitCode, Failure<'a>>
where
    R: Files + AllocGlobal,
    W: Write,
    ensures told { IfOk result (λ code. (exit_status code ≡ 0) × (built : Option (List ℕ))
        × Appends (W.contents writer.old) (W.contents writer.new)
        (version_text version.now built)) }
    ensures fault { IfErr result (λ failure. IsOfOutput failure.fault) }
{
    let note = build_words(rt);
    let built = note.as_ref().map(|words| words.trim_end());
    if write_version(version, built, writer).is_err() {
        return Err(Failure::from(ProgramFault::File("-")));
    }
    flush(writer)?;
    Ok(ExitCode::SUCCESS)
}

/// Writes a version, and of which commit the program was built, where that is known.
pub fn write_version<W: Write>(version: &str, built: Option<&str>, writer: &mut W) -> io::Result<()>
    ensures { OnOk result (Appends (W.contents writer.old) (W.contents writer.new)
        (version_text version.now (option_map (λ words. words.now) built.entry))) }
{
    match built {
        Some(words) => writeln!(writer, "nvctl {version} ({words})"),
        None => writeln!(
            writer,
            "nvctl {version} (of which commit it was built isn't known)"
        ),
    }
}
