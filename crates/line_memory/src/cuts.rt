// What a cut leaves told.
ghost use Rattle.std.specs.Prelude.{◌≡◌, ◌+◌, ◌≤◌, ℕ, length};
ghost use Rattle.line_memory.specs.History.{Recorded, TellsSameFrom, cut_at};

/// A record that was cut at a number tells the same as before of each number from that one on: the memory after so many
/// writes, the write of the number, and which answers it can bear out. Two cuts come to the later one.
pub fn cuts_keep_what_is_told()
    ensures tells { (at : ℕ) (life : Recorded) → life.start ≤ at
        → at ≤ life.start + length life.writes → TellsSameFrom at life (cut_at at life) }
    ensures again { (life : Recorded) (first second : ℕ) → life.start ≤ first → first ≤ second
        → cut_at second (cut_at first life) ≡ cut_at second life }
{}
