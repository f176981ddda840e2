// Which journal a memory holds.
ghost use Rattle.std.specs.Prelude.{◌≡◌, ◌≤◌, ◌^◌, [], ℕ, List, length, suc};
ghost use Rattle.line_memory.specs.Memory.{zero_lines};
ghost use Rattle.journal_log.specs.Log.{Holds, Log};

/// A memory holds at most one journal (`alike`), and one of zero lines holds the empty one (`fresh`).
pub fn memories_hold_one_journal()
    ensures alike { (memory : List (List ℕ)) (some other : Log) → Holds memory some
        → Holds memory other → length memory ≤ 2 ^ 64 → some ≡ other }
    ensures fresh { (lines : ℕ) → Holds (zero_lines (suc lines))
        (record { gone = 0; first = 0; records = [] }) }
{}
