// Scripts and what they are to write, with a slash at the end of each line but the last.
use nv_profile::{TINY, read_profile};
use run_command::run_on_maps;
use std::alloc::Global;
use std::process::Abort;

// What a script writes on a profile.
fn written(alloc: Global, profile: &str, script: &[u8]) -> Option<String> {
    let Ok(profile) = read_profile(alloc, profile.as_bytes()) else {
        return None;
    };
    let mut text = Vec::new(alloc);
    match run_on_maps(alloc, &profile, script, &mut text) {
        Ok(_) => String::from_utf8(text).ok(),
        Err(_) => None,
    }
}

/// What a script answers on a profile; nothing where it isn't run.
pub(crate) fn answers_on(alloc: Global, profile: &str, script: &str) -> Option<String> {
    let script = script.replace(alloc, "/", "\n").ok()?;
    let text = written(alloc, profile, script.as_bytes())?;
    text.trim_end().replace(alloc, "\n", "/").ok()
}

/// Fails where a script doesn't answer these lines on the small profile.
pub(crate) fn is_answered<R: Abort + AllocGlobal>(rt: &R, script: &str, wanted: &str) {
    let answers = answers_on(rt.alloc(), TINY, script);
    assert_eq!(*rt; answers.as_deref(), Some(wanted), "{script}");
}

/// Fails where one of the scripts doesn't answer the lines beside it.
pub(crate) fn are_answered<R: Abort + AllocGlobal>(rt: &R, cases: &[(&str, &str)]) {
    for (script, wanted) in cases {
        is_answered(rt, script, wanted);
    }
}
