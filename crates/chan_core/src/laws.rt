// What holds of runs of commands and of memories. The functions have no code.
ghost use Rattle.std.specs.Prelude.{◌≡◌, ℕ, ◌≤◌, List, count_by, nat_lt};
ghost use Rattle.ddr4_timing.specs.declared.command.Stamped.{Stamped};
ghost use Rattle.ddr4_timing.specs.declared.place.Place.{Place};
ghost use Rattle.wpq_core.specs.Writes.{ComeBefore};
ghost use Rattle.chan_core.specs.State.{ChannelState, channel_memory, memory_below};
ghost use Rattle.chan_core.specs.Calls.{AddsWrite, IssuesChoices};

/// Commands change neither the profile nor the channel, and bring no write that wasn't pending before.
pub fn commands_keep()
    ensures checked { (old new : ChannelState) (commands : List Stamped)
        → IssuesChoices old commands new → new.checked ≡ old.checked }
    ensures channel { (old new : ChannelState) (commands : List Stamped)
        → IssuesChoices old commands new → new.channel ≡ old.channel }
    ensures numbers { (old new : ChannelState) (commands : List Stamped) (n : ℕ)
        → IssuesChoices old commands new → ComeBefore n old.writes → ComeBefore n new.writes }
{}

/// The memory below a number is the array where no pending write has a smaller number, and the whole memory where each has
/// one; a write with that number or a greater one leaves it.
pub fn memory_below_a_number()
    ensures none { (s : ChannelState) (n : ℕ)
        → count_by (λ w. nat_lt w.number n) s.writes ≡ 0 → memory_below n s ≡ s.array }
    ensures all { (s : ChannelState) (n : ℕ)
        → ComeBefore n s.writes → memory_below n s ≡ channel_memory s }
    ensures later { (old new : ChannelState) (n number : ℕ) (place : Place) (bytes : List ℕ)
        → n ≤ number → AddsWrite old number place bytes new
        → memory_below n new ≡ memory_below n old }
{}
