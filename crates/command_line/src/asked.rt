// The profile and the script that the words of a verb name, read.
ghost use Rattle.std.specs.Prelude.{IfErr, IfOk};
ghost use Rattle.command_faults.specs.Named.{NamesProfile};
ghost use Rattle.command_line.specs.Verbs.{IsUnread, profile_word, script_word};

use crate::command::word_or;
use clap::ArgMatches;
use command_faults::{Failure, FileHost, profile_of};
use nv_profile::Profile;
use nv_script::SCRIPT_BYTES;

/// A profile, and the bytes of a script.
#[derive(Drop)]
pub(crate) struct AskedScript {
    pub profile: Profile,
    pub script: Vec<u8>,
}

/// The profile and the script that the words name. Of a file no more is read than a script may have.
pub(crate) fn script_asked<'a, R: FileHost + AllocGlobal>(
    rt: &R,
    matches: &ArgMatches<'a>,
) -> Result<AskedScript, Failure<'a>>
    ensures profile { IfOk result (λ asked.
        NamesProfile (R.gives rt.now) (profile_word matches.now) asked.profile) }
    ensures script { IfOk result (λ asked.
        R.gives rt.now (script_word matches.now) asked.script.items) }
    ensures fault { IfErr result (λ failure. IsUnread matches.now failure.fault) }
{
    let profile = profile_of(rt, word_or(matches, "PROFILE", "tiny"))?;
    let script = rt.bytes_of(word_or(matches, "SCRIPT", "-"), SCRIPT_BYTES)?;
    Ok(AskedScript { profile, script })
}
