// The processor time of this program.
use std::fs;

/// How long this program has held processors so far, in milliseconds, to ten of them. None where the system doesn't tell: Linux
/// does, in `/proc/self/stat`.
pub(crate) fn held_millis(rt: &HostRuntime) -> Option<u64> {
    let text = fs::read_to_string(rt, "/proc/self/stat").ok()?;
    let (_, fields) = text.as_str().rsplit_once(')')?;
    let mut words = fields.split_ascii_whitespace().skip(11);
    let user: u64 = words.next()?.parse().ok()?;
    let system: u64 = words.next()?.parse().ok()?;
    Some(user.saturating_add(system).saturating_mul(10))
}
