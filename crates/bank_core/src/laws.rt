// What a list leaves to the next command. The function has no code.
ghost use Rattle.std.specs.Prelude.{List};
ghost use Rattle.ddr4_timing.specs.declared.command.Stamped.{Stamped};
ghost use Rattle.ddr4_timing.specs.declared.timing.Geometry.{Geometry};
ghost use Rattle.ddr4_timing.specs.declared.timing.Timing.{Timing};
ghost use Rattle.ddr4_timing.specs.declared.timing_state.TimingState.{TimingState};
ghost use Rattle.ddr4_timing.specs.Limits.{AreInLimits};
ghost use Rattle.ddr4_timing.specs.TimingState.{StandsFor};
ghost use Rattle.bank_core.specs.Laws.{LeaveTheSame};

/// Two lists for which the state of one `Banks` stands leave the same to the next command: what is open, the refreshes and
/// sleep of each rank, each least clock, and which command may go when.
pub fn lists_agree()
    ensures { (t : Timing) (g : Geometry) (state : TimingState) (one two : List Stamped)
        → AreInLimits t → StandsFor t g state one → StandsFor t g state two
        → LeaveTheSame t g one two }
{}
