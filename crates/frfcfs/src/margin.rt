// The time that each rank has for its next refresh: what keeps it, and what it gives. The functions have no code.
ghost use Rattle.std.specs.Prelude.{◌≡◌, ℕ, ◌+◌, ◌*◌, ◌<◌, ◌^◌, ◌↔◌, ◌⊎◌, List, [], Option, Some, None, IsTrue};
ghost use Rattle.ddr4_timing.specs.Lawful.{IsLawful, is_asleep, last_ref};
ghost use Rattle.ddr4_timing.specs.Limits.{entry_of, close_of};
ghost use Rattle.ddr4_timing.specs.declared.command.Stamped.{Stamped};
ghost use Rattle.ddr4_timing.specs.declared.timing.Checked.{Checked};
ghost use Rattle.bank_core.specs.Stands.{with_command};
ghost use Rattle.frfcfs.specs.declared.next.Next.{Next};
ghost use Rattle.request_notes.specs.declared.pending.Pending.{Pending};
ghost use Rattle.frfcfs.specs.Next.{IsNext};
ghost use Rattle.frfcfs.specs.Margin.{AreAsleep, KeepsMargin, MayClose, MayRefresh, last_clock};

/// What keeps it. Before the first command each rank has its time (`new`). The scheduler's next command keeps it, whatever the
/// requests are (`next`). Where every rank had its SRE it is kept whatever commands came before, so a whole drain keeps it
/// (`asleep`).
pub fn margin_is_kept()
    ensures new { (c : Checked) → KeepsMargin c [] }
    ensures next { (c : Checked) (list : List Stamped) (pending : List Pending) (next : Next) →
        KeepsMargin c list → IsNext c list pending (last_clock list) (Some next) →
        KeepsMargin c (with_command list next.clock next.cmd) }
    ensures asleep { (c : Checked) (list : List Stamped) → AreAsleep c list → KeepsMargin c list }
{}

/// What it gives. Below clock 2^62 there is no next command exactly where every rank had its SRE (`none`). The REF of a rank
/// that is awake can still go before its deadline, at once or after a PREA (`refresh`). A drain's close step and two of its
/// entries end before the deadline of each rank that is awake (`drain`).
pub fn margin_gives_time()
    ensures none { (c : Checked) (list : List Stamped) (pending : List Pending)
        (next : Option Next) → KeepsMargin c list → IsLawful c list → last_clock list < 2 ^ 62 →
        IsNext c list pending (last_clock list) next →
        ((next ≡ None) ↔ AreAsleep c list) }
    ensures refresh { (c : Checked) (list : List Stamped) (rank : ℕ) → KeepsMargin c list →
        IsLawful c list → rank < c.geometry.ranks → ¬ IsTrue (is_asleep rank list) →
        MayRefresh c list rank ⊎ MayClose c list rank }
    ensures drain { (c : Checked) (list : List Stamped) (rank : ℕ) → KeepsMargin c list →
        rank < c.geometry.ranks → ¬ IsTrue (is_asleep rank list) →
        last_clock list + 1 + close_of c.timing c.geometry + 2 * entry_of c.timing c.geometry + 4 * c.geometry.ranks
        < last_ref rank list + 9 * c.timing.t_refi }
{}
