// The files that the words name.
ghost use Rattle.std.specs.Prelude.{◌≡◌, ◌⊎◌, ℕ, List, IfErr, IfOk, IsTrue, OnOk};
ghost use Rattle.std.specs.Io.KnownBytes.{Keeps};
ghost use Rattle.nv_profile.specs.Ready.{IsReadyWord};
ghost use Rattle.command_faults.specs.Exit.{IsNoProfile, IsOfFile, IsOfNoFile, IsOfOutput};
ghost use Rattle.command_faults.specs.Named.{IsTextOf, NamesNumbers, NamesProfile, NamesRules};

use crate::failure::{Failure, Reason};
use crate::fault::ProgramFault;
use ddr4_timing::timing::CommandRules;
use nv_profile::{
    MOST_BYTES, Numbers, Profile, ProfileFault, read_numbers, read_profile, ready_profile,
};
use profile_report::reasons;
use std::alloc::{AllocError, Global};
use std::fs::{self, File, Metadata};
use std::io::{Input, Read, Write};
use std::os::unix::fs::MetadataExt;
use std::path::Path;
use std::rt::Files;

/// Who gives the bytes that the words of the program name. Its type may say which ones; that of a real system claims nothing, since no
/// contract can say what a file has.
pub trait FileHost {
    /// It gives these bytes for that name.
    ghost gives: { Self → List ℕ → List ℕ → Type 0 };

    /// The first bytes of the file of this name, up to so many.
    fn file_bytes<'a>(&self, name: &'a str, most: u64) -> Result<Vec<u8>, Failure<'a>>
        ensures given { IfOk result (λ bytes. gives self.now name.entry.now bytes.items) }
        ensures fault { IfErr result (λ failure. IsOfFile name.entry failure.fault) };

    /// The same, or for - of standard input.
    fn bytes_of<'a>(&self, name: &'a str, most: u64) -> Result<Vec<u8>, Failure<'a>>
        ensures given { IfOk result (λ bytes. gives self.now name.entry.now bytes.items) }
        ensures fault { IfErr result (λ failure. IsOfFile name.entry failure.fault) };
}

impl FileHost for HostRuntime {
    ghost gives = { λ _ _ _. Unit {0} };

    fn file_bytes<'a>(&self, name: &'a str, most: u64) -> Result<Vec<u8>, Failure<'a>> {
        match File::open(self, name) {
            Ok(file) => all_of(self.alloc(), file, most, name),
            Err(error) => Err(Failure::of_file(name, &error)),
        }
    }

    fn bytes_of<'a>(&self, name: &'a str, most: u64) -> Result<Vec<u8>, Failure<'a>> {
        if name == "-" {
            all_of(self.alloc(), self.reader(), most, name)
        } else {
            self.file_bytes(name, most)
        }
    }
}

// The text of a profile by its word: `tiny`, `tiny2`, or a file, of which no more is read than a profile may have and a byte.
fn profile_text<'a, R: FileHost + AllocGlobal>(
    rt: &R,
    word: &'a str,
) -> Result<Vec<u8>, Failure<'a>>
    ensures text { IfOk result (λ text. IsTextOf (R.gives rt.now) word.entry.now text.items) }
    ensures ready { IsReadyWord word.entry.now
        → IfErr result (λ failure. IsOfNoFile failure.fault) }
    ensures file { IfErr result (λ failure. IsOfFile word.entry failure.fault) }
{
    match ready_profile(word) {
        Some(text) => Ok(text.as_bytes().to_vec(rt.alloc())?),
        None => match rt.file_bytes(word, MOST_BYTES as u64 + 1) {
            Ok(bytes) => Ok(bytes),
            Err(failure) => Err(failure.or_word(rt.alloc(), word)),
        },
    }
}

/// The profile of its word: `tiny`, `tiny2`, or a file of TOML.
pub fn profile_of<'a, R: FileHost + AllocGlobal>(
    rt: &R,
    word: &'a str,
) -> Result<Profile, Failure<'a>>
    ensures named { IfOk result (NamesProfile (R.gives rt.now) word.entry.now) }
    ensures ready { IsReadyWord word.entry.now
        → IfErr result (λ failure. IsOfNoFile failure.fault) }
    ensures file { IfErr result (λ failure. IsOfNoFile failure.fault
        ⊎ IsOfFile word.entry failure.fault) }
{
    let text = profile_text(rt, word)?;
    match read_profile(rt.alloc(), &text) {
        Ok(profile) => Ok(profile),
        Err(ProfileFault::Refused) => Err(Failure {
            fault: ProgramFault::Profile,
            reason: why_no_profile(rt.alloc(), &text).ok().map(Reason::Told),
        }),
        Err(ProfileFault::Memory) => Err(Failure::from(ProgramFault::Memory)),
    }
}

/// The numbers by which commands alone are checked, by the word of a profile: `tiny`, `tiny2`, or a file of TOML, which is a
/// profile or has its tables of the timing and of the geometry and no other.
pub fn rules_of<'a, R: FileHost + AllocGlobal>(
    rt: &R,
    word: &'a str,
) -> Result<CommandRules, Failure<'a>>
    ensures named { IfOk result (NamesRules (R.gives rt.now) word.entry.now) }
    ensures ready { IsReadyWord word.entry.now
        → IfErr result (λ failure. IsOfNoFile failure.fault) }
    ensures file { IfErr result (λ failure. IsOfNoFile failure.fault
        ⊎ IsOfFile word.entry failure.fault) }
{
    let text = profile_text(rt, word)?;
    match read_numbers(rt.alloc(), &text) {
        Ok(numbers) => Ok(numbers.rules()),
        Err(ProfileFault::Refused) => Err(Failure {
            fault: ProgramFault::Profile,
            reason: why_no_profile(rt.alloc(), &text).ok().map(Reason::Told),
        }),
        Err(ProfileFault::Memory) => Err(Failure::from(ProgramFault::Memory)),
    }
}

/// The same for who asks what numbers mean: the fault itself says why a text has none.
pub fn asked_numbers<'a, R: FileHost + AllocGlobal>(
    rt: &R,
    word: &'a str,
) -> Result<Numbers, Failure<'a>>
    ensures named { IfOk result (NamesNumbers (R.gives rt.now) word.entry.now) }
    ensures file { IfErr result (λ failure. IsNoProfile failure.fault
        ⊎ IsOfFile word.entry failure.fault) }
{
    let text = profile_text(rt, word)?;
    match read_numbers(rt.alloc(), &text) {
        Ok(numbers) => Ok(numbers),
        Err(ProfileFault::Refused) => {
            let why = why_no_profile(rt.alloc(), &text)?;
            Err(Failure::from(ProgramFault::NoProfile(why)))
        }
        Err(ProfileFault::Memory) => Err(Failure::from(ProgramFault::Memory)),
    }
}

// Why a text is no profile, each reason a line. There is none of a text by which commands alone are checked.
fn why_no_profile(alloc: Global, text: &[u8]) -> Result<String, AllocError> {
    let reasons = reasons(alloc, text)?;
    if reasons.is_empty() {
        return String::from_str(alloc, "no module: no tables costs and module");
    }
    reasons.join(alloc, "\n  ")
}

/// Is it a file that can be read again? A pipe can't.
pub fn is_file<'a, R: Files>(rt: &R, name: &'a str) -> Result<bool, Failure<'a>>
    ensures { IfErr result (λ failure. IsOfFile name.entry failure.fault) }
{
    match fs::metadata(rt, name) {
        Ok(found) => Ok(found.is_file()),
        Err(error) => Err(Failure::of_file(name, &error)),
    }
}

/// Do two words name one file? A word names the same file as itself, and two others do where the system has them as one place: by
/// another path, by a link, by a second name. Where neither is there, they do as one name in one folder.
pub fn is_one_file<R: Files>(rt: &R, one: &str, other: &str) -> bool
    ensures { one.now ≡ other.now → IsTrue result }
{
    if one == other {
        return true;
    }
    match (fs::metadata(rt, one), fs::metadata(rt, other)) {
        (Ok(one), Ok(other)) => is_one_node(&one, &other),
        (Err(_), Err(_)) => is_one_place(rt, Path::new(one), Path::new(other)),
        _ => false,
    }
}

// Is it one file of the system? A system that numbers no files has 0 for each.
fn is_one_node(one: &Metadata, other: &Metadata) -> bool {
    one.ino() != 0 && one.ino() == other.ino() && one.dev() == other.dev()
}

// Would two files that aren't there yet be one? They would by one name in one folder.
fn is_one_place<R: Files>(rt: &R, one: Path<'_>, other: Path<'_>) -> bool {
    if one.file_name() != other.file_name() {
        return false;
    }
    match (
        fs::metadata(rt, folder_of(one)),
        fs::metadata(rt, folder_of(other)),
    ) {
        (Ok(one), Ok(other)) => is_one_node(&one, &other),
        _ => false,
    }
}

// The folder that a path is in: of a bare name the one that the program runs in.
fn folder_of(path: Path<'_>) -> Path<'_> {
    match path.parent() {
        Some(folder) if !folder.as_str().is_empty() => folder,
        _ => Path::new("."),
    }
}

// What a reader gives, up to so many bytes.
fn all_of<'a, S: Read + Drop>(
    alloc: Global,
    source: S,
    most: u64,
    name: &'a str,
) -> Result<Vec<u8>, Failure<'a>>
    ensures { IfErr result (λ failure. IsOfFile name.entry failure.fault) }
{
    let mut bytes = Vec::new(alloc);
    match source.take(most).read_to_end(&mut bytes) {
        Ok(_) => Ok(bytes),
        Err(error) => Err(Failure::of_file(name, &error)),
    }
}

/// Writes what a writer to standard output has taken. What it holds stays as it is.
pub fn flush<W: Write>(writer: &mut W) -> Result<(), ProgramFault<'static>>
    ensures kept { OnOk result (Keeps (W.contents writer.old) (W.contents writer.new)) }
    ensures fault { IfErr result IsOfOutput }
{
    match writer.flush() {
        Ok(()) => Ok(()),
        Err(_) => Err(ProgramFault::File("-")),
    }
}
