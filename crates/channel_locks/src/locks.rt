// How a lock is taken.
use std::hint::spin_loop;
use std::sync::{Mutex, MutexGuard, Wait};
use std::thread;

/// How often a lock is tried in a row: whoever has it mostly needs it shorter than it takes to give a processor away and to get one
/// back.
const TRIES: u64 = 4;

/// How often a thread gives its processor away, before it sleeps until the lock is free.
const YIELDS: u64 = 200;

// Tries a lock a few times in a row.
fn try_shortly<T>(lock: &Mutex<T>) -> Option<MutexGuard<'_, T>> {
    for _ in 0..TRIES {
        if let Some(guard) = lock.try_lock() {
            return Some(guard);
        }
        spin_loop();
        spin_loop();
    }
    None
}

/// Takes a lock. While another thread has it, it is tried a few times in a row, and then again behind the other threads, since a
/// thread that sleeps for it costs each who lets it go a call of the system.
pub fn take_lock<'a, T, R: Wait>(rt: &R, lock: &'a Mutex<T>) -> MutexGuard<'a, T> {
    for _ in 0..YIELDS {
        if let Some(guard) = try_shortly(lock) {
            return guard;
        }
        thread::yield_now();
    }
    lock.lock(rt)
}
