// The processor time and the memory of this program.
use std::fs;

/// How long this program has held processors so far, in milliseconds, to ten of them. None where the system doesn't tell: Linux
/// does, in `/proc/self/stat`.
pub(crate) fn held_millis(rt: &HostRuntime) -> Option<u64> {
    let text = fs::read_to_string(rt, "/proc/self/stat").ok()?;
    let (_, fields) = text.as_str().rsplit_once(')')?;
    let mut words = fields.split_ascii_whitespace().skip(11);
    let user: u64 = words.next()?.parse().ok()?;
    let system: u64 = words.next()?.parse().ok()?;
    Some(user.saturating_add(system).saturating_mul(10))
}

/// How much memory this program has held at most so far, in KiB. None where the system doesn't tell: Linux does, in
/// `/proc/self/status`.
pub(crate) fn peak_kib(rt: &HostRuntime) -> Option<u64> {
    let text = fs::read_to_string(rt, "/proc/self/status").ok()?;
    let (_, rest) = text.as_str().split_once("VmHWM:")?;
    rest.split_ascii_whitespace().next()?.parse().ok()
}
