// What the definitions say. The function has no code.
ghost use Rattle.std.specs.Prelude.{◌≡◌, ◌≢◌, ℕ, ◌<◌, List, Some, slice_get};
ghost use Rattle.ddr4_timing.specs.declared.command.Command.{Command};
ghost use Rattle.ddr4_timing.specs.declared.command.Stamped.{Stamped};
ghost use Rattle.ddr4_timing.specs.declared.timing.Checked.{Checked};
ghost use Rattle.request_notes.specs.declared.pending.Pending.{Pending};
ghost use Rattle.request_notes.specs.Requests.{AreInOrder, IsEligible};
ghost use Rattle.frfcfs.specs.Candidates.{Turn, IsLeast};

/// No request at an earlier place of the list names the line of an eligible one (`first`), and there is one choice at a clock
/// (`one`).
pub fn one_choice()
    ensures first { (pending : List Pending) (i j : ℕ) (p q : Pending) → AreInOrder pending →
        IsEligible pending i p → j < i →
        slice_get pending j ≡ Some q → q.line ≢ p.line }
    ensures one { (c : Checked) (list : List Stamped) (pending : List Pending) (clock : ℕ)
        (s t : Turn) (a b : Command) → AreInOrder pending → IsLeast c list pending clock s a →
        IsLeast c list pending clock t b → (s ≡ t) × (a ≡ b) }
{}
