// Of which commit the program was built.
use std::env;
use std::fs::File;
use std::io::Read;
use std::rt::Files;

/// The most bytes of a note.
const MOST_BYTES: u64 = 200;

/// What the file `nvctl.built` beside the program says: of which commit it was built, and that it was proved. None where there is no
/// such file, as where the program was copied, or is tried before its proof.
pub fn build_words<R: Files + AllocGlobal>(rt: &R) -> Option<String> {
    let program = env::current_exe(rt).ok()?;
    let note = program.with_file_name(rt.alloc(), "nvctl.built").ok()?;
    let file = File::open(rt, &note).ok()?;
    let mut words = String::new(rt.alloc());
    file.take(MOST_BYTES).read_to_string(&mut words).ok()?;
    Some(words)
}
