// What the pending writes mean to a memory.
ghost use Rattle.std.specs.Prelude.{◌≡◌, ℕ, List, [], ◌∷◌, ◌++◌};
ghost use Rattle.line_memory.specs.Memory.{after_write};
ghost use Rattle.wpq_core.specs.declared.queue.PendingWrite.{PendingWrite};
ghost use Rattle.wpq_core.specs.Writes.{IsFirstOfItsLine};
ghost use Rattle.wpq_core.specs.PendingMemory.{HasNewestData, MayGoEarly, after_pending};

/// A line of the memory after the pending writes is the newest pending write's data of that line, or else the array's
/// (`newest`). Where no older pending write names its line, a pending write may go into the array: the memory after the
/// pending writes stays as it is (`early`). A pushed write is in that memory (`pushed`).
pub fn pending_writes()
    ensures newest { (array : List (List ℕ)) (writes : List PendingWrite)
        → HasNewestData array writes }
    ensures early { (array : List (List ℕ)) (writes : List PendingWrite) (i : ℕ)
        → IsFirstOfItsLine writes i → MayGoEarly array writes i }
    ensures pushed { (array : List (List ℕ)) (writes : List PendingWrite) (pending : PendingWrite)
        → after_pending array (writes ++ pending ∷ [])
        ≡ after_write (after_pending array writes) pending.write }
{}
