// What several lives come to.
ghost use Rattle.std.specs.Prelude.{◌≡◌, ◌+◌, ◌≤◌, ◌∷◌, ℕ, List, length};
ghost use Rattle.line_memory.specs.Memory.{after};
ghost use Rattle.nv_machine.specs.Lives.{Lived, AreChained, last_opened, history_before};

/// Lives in a chain, each opened with what the bytes that the one before left restore to, have one history: the last one is
/// opened with the memory after the writes of all before it, each life's cut at the count that the next one was opened with,
/// and its own count says how many these are.
pub fn one_history()
    ensures memory { (life : Lived) (lives : List Lived)
        → AreChained (life ∷ lives)
        → (last_opened life lives).memory
        ≡ after life.image.memory (history_before (life ∷ lives)) }
    ensures count { (life : Lived) (lives : List Lived)
        → AreChained (life ∷ lives)
        → (last_opened life lives).count
        ≡ life.image.count + length (history_before (life ∷ lives)) }
{}
