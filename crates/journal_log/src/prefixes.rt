// What the first writes of a journal's calls hold.
ghost use Rattle.std.specs.Prelude.{◌≡◌, ◌-◌, ◌≤◌, ◌++◌, [], ℕ, List, length, take};
ghost use Rattle.line_memory.specs.Memory.{after};
ghost use Rattle.journal_log.specs.Log.{Holds, Log};
ghost use Rattle.journal_log.specs.Calls.{AreAllowed, Attempt, Call, IsReadAs, done_of, journal_writes, kept_in, log_after_all, writes_in};

/// The memory after the first n writes of a journal's calls holds the journal behind those calls whose last write, the head's, is
/// among the n: each call is there whole or not at all (`whole`). A reader sees all records that were there and those that these
/// calls appended, but the ones that are gone (`reads`). Where n holds all writes of the first calls, each of them that was done is
/// among them (`told`), and they are always a first part of the calls that were done (`front`).
pub fn prefixes_are_whole_calls()
    ensures whole { (base : List (List ℕ)) (log : Log) (attempts : List Attempt) (n : ℕ)
        → Holds base log → AreAllowed (length base) log attempts
        → Holds (after base (take n (journal_writes (length base) log attempts)))
        (log_after_all (length base) log (kept_in n attempts)) }
    ensures reads { (lines : ℕ) (log : Log) (attempts : List Attempt) (n : ℕ)
        → AreAllowed lines log attempts
        → IsReadAs log (kept_in n attempts) (log_after_all lines log (kept_in n attempts)) }
    ensures told { (first later : List Attempt) (n : ℕ) → writes_in first ≤ n
        → kept_in n (first ++ later) ≡ done_of first ++ kept_in (n - writes_in first) later }
    ensures front { (attempts : List Attempt) (n : ℕ)
        → (later : List Call) × (done_of attempts ≡ kept_in n attempts ++ later) }
    ensures count { (lines : ℕ) (log : Log) (attempts : List Attempt)
        → length (journal_writes lines log attempts) ≡ writes_in attempts }
{}
