// The calls of a device, one after another.
ghost use Rattle.std.specs.Prelude.{◌≡◌, ◌-◌, ◌^◌, [], ◌∷◌, ◌++◌, List, min};
ghost use Rattle.save_device.specs.declared.calls.Call.{Call};
ghost use Rattle.save_device.specs.Calls.{called, faults_in};

use ghost_trace::Trace;
use std::marker::Model;

/// What a call of a device is.
#[derive(Clone, Copy, Debug, PartialEq, Eq)]
pub enum CallKind {
    Read,
    Write,
    Sync,
}

/// A call that was made.
#[derive(Clone, Copy, Debug, PartialEq, Eq)]
pub struct Call {
    pub kind: CallKind,
    /// It wasn't answered by a fault.
    pub is_good: bool,
}

/// The calls so far, which clauses see as a list, the oldest first. At run time it is the number of those that failed.
#[derive(Drop)]
pub struct CallLog {
    faults: u64,
    calls: Trace<Call>,
}

impl Model for CallLog {
    ghost Value = { List Call };

    ghost view = { λ log. log.calls.items };

    ghost invariant = { λ log. log.faults ≡ min (faults_in log.calls.items) (2 ^ 64 - 1) };
}

impl CallLog {
    /// No call was made yet.
    pub fn new() -> CallLog
        ensures { result ≡ [] }
    {
        CallLog {
            faults: 0,
            calls: Trace::new(),
        }
    }

    /// The same calls.
    pub fn copy(&self) -> CallLog
        ensures { result ≡ self.now }
    {
        CallLog {
            faults: self.faults,
            calls: self.calls.copy(),
        }
    }

    /// Adds a call.
    pub fn note(&mut self, kind: CallKind, is_good: bool)
        ensures { self.new ≡ self.old ++ called kind is_good ∷ [] }
    {
        self.calls.note(&Call { kind, is_good });
        if !is_good {
            self.faults = self.faults.saturating_add(1);
        }
    }

    /// The number of calls that failed, or the largest number where there were more.
    pub fn faults(&self) -> u64
        ensures { result ≡ min (faults_in self.now) (2 ^ 64 - 1) }
    {
        self.faults
    }
}
