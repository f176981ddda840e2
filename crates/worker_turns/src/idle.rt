// What a thread does behind a turn in which there was nothing to do.
ghost use Rattle.std.specs.Prelude.{◌≡◌, ◌+◌, ◌-◌, ◌^◌, ◌<◌, ◌≤◌, IfNone, IfSome, min};

use std::thread;
use std::time::{Clock, Duration};

/// Behind how many idle turns in a row a thread gives its processor away. Behind each further one it sleeps.
const YIELDS: u64 = 16;

/// How long a thread sleeps at most behind a turn, in microseconds.
const LONGEST_SLEEP: u64 = 3_000;

// How long a thread sleeps that has had so many idle turns in a row and then one more, in microseconds: one more behind each, and
// 3,000 at most, five seconds after its last work. The first 16 are followed by no sleep.
fn sleep_after(idle: u64) -> Option<u64>
    ensures none { IfNone result (idle < 16) }
    ensures some { IfSome result (λ micros. (16 ≤ idle) × (micros ≡ min (idle - 15) 3000)) }
{
    let beyond = idle.checked_sub(YIELDS)?;
    Some(beyond.min(LONGEST_SLEEP - 1) + 1)
}

/// Gives way behind an idle turn, after so many idle ones in a row: it gives its processor away behind the first 16, and sleeps
/// behind each further one, three milliseconds at most. It answers how many they are now.
pub fn give_way(clock: &impl Clock, idle: u64) -> u64
    ensures { result ≡ min (idle + 1) (2 ^ 64 - 1) }
{
    match sleep_after(idle) {
        None => thread::yield_now(),
        Some(micros) => thread::sleep(clock, Duration::from_micros(micros)),
    }
    idle.saturating_add(1)
}
