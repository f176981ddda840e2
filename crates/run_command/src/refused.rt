// Words of a run by which nothing is written.
ghost use Rattle.std.specs.Prelude.{◌≡◌, ◌⊎◌, ◌↔◌, codes, IfSome, IsSome};
ghost use Rattle.command_faults.specs.Exit.{status_of};
ghost use Rattle.run_command.specs.Refused.{IsNoStore, NamesNoCommands};

use crate::script::{RunWords, StoreWord};
use command_faults::{ProgramFault, is_one_file};
use std::rt::Files;

/// Why a run has no store of this word, if it has none.
pub(crate) fn refusal<R: Files>(
    rt: &R,
    store: StoreWord<'_>,
    profile: &str,
    script: &str,
) -> Option<ProgramFault<'static>>
    ensures none { IsNoStore profile.now script.now store.entry → IsSome result }
    ensures status { IfSome result (λ fault. status_of fault ≡ 2) }
{
    let (StoreWord::Out(name) | StoreWord::Kept(name)) = store;
    let why = why_unwritten(rt, name, profile, script)?;
    Some(match store {
        StoreWord::Out(_) => ProgramFault::Out(why),
        StoreWord::Kept(_) => ProgramFault::Kept(why),
    })
}

/// Why a run writes no commands to the file of its words, if it has one for them.
pub(crate) fn commands_refusal<R: Files>(
    rt: &R,
    words: RunWords<'_>,
) -> Option<ProgramFault<'static>>
    ensures some { NamesNoCommands words.entry → IsSome result }
    ensures status { IfSome result (λ fault. status_of fault ≡ 2) }
{
    let name = words.commands?;
    if let Some(why) = why_unwritten(rt, name, words.profile, words.script) {
        return Some(ProgramFault::Commands(why));
    }
    if is_of_later_life(name, words.profile) || is_of_later_life(name, words.script) {
        let why = "names a file that is read, for a later life";
        return Some(ProgramFault::Commands(why));
    }
    let (StoreWord::Out(store) | StoreWord::Kept(store)) = words.store?;
    if is_one_file(rt, store, name) {
        return Some(ProgramFault::Commands("names the store"));
    }
    if is_of_later_life(name, store) {
        return Some(ProgramFault::Commands("names the store, for a later life"));
    }
    None
}

// Is a word that of the file for a later life's commands, which stands beside the one of this name?
fn is_of_later_life(name: &str, word: &str) -> bool {
    let Some(behind) = word.strip_prefix(name) else {
        return false;
    };
    match behind.strip_prefix(".") {
        Some(number) => number.parse::<u64>().is_ok(),
        None => false,
    }
}

// Why a run writes nothing to the file of this name: the word may not be, or another one names the same file, which is read.
fn why_unwritten<R: Files>(rt: &R, name: &str, profile: &str, script: &str) -> Option<&'static str>
    ensures { ((name.now ≡ codes "-") ⊎ ((name.now ≡ profile.now) ⊎ (name.now ≡ script.now)))
        → IsSome result }
{
    if let Some(why) = why_no_store(name, profile, script) {
        return Some(why);
    }
    if is_one_file(rt, name, profile) {
        Some("names the profile")
    } else if is_one_file(rt, name, script) {
        Some("names the script")
    } else {
        None
    }
}

/// Why a run with these words for its profile and its script writes no store to a file of this name: that is standard output, which
/// has the answers, or the profile, or the script.
pub fn why_no_store(store: &str, profile: &str, script: &str) -> Option<&'static str>
    ensures { IsSome result ↔ ((store.now ≡ codes "-")
        ⊎ ((store.now ≡ profile.now) ⊎ (store.now ≡ script.now))) }
{
    if store == "-" {
        Some("names a file, and standard output has the answers")
    } else if store == profile {
        Some("names the profile")
    } else if store == script {
        Some("names the script")
    } else {
        None
    }
}
