// What the open reads of a life have.
ghost use Rattle.std.specs.Prelude.{◌<◌, ℕ, List, [], length, slice_index_or};
ghost use Rattle.channel_log.specs.Log.{LogNote, log_tells};
ghost use Rattle.channel_log.specs.ReadLines.{ReadsHaveLines};
ghost use Rattle.nv_machine.specs.Lives.{LivedUntil};
ghost use Rattle.nv_machine.specs.State.{Machine, Setup, World, base_of_life};
ghost use Rattle.split_module.specs.Reads.{ReadsHaveTheirLines};
ghost use Rattle.split_module.specs.Telling.{AreLogsOf};

/// Each open read of a life so far has its line of the memory after the writes that had been accepted when it was asked (`machine`).
/// So has each read that a channel's log tells to wait, by the writes of that log (`logs`).
pub fn reads_have_their_lines()
    ensures machine { (setup : Setup) (now : World) → LivedUntil setup now
        → ReadsHaveTheirLines setup.shape.channel_of now.machine }
    ensures logs { (setup : Setup) (m : Machine) (logs : List (List LogNote)) (channel : ℕ)
        → AreLogsOf setup m logs → ReadsHaveTheirLines setup.shape.channel_of m
        → channel < length logs
        → ReadsHaveLines (base_of_life m.life) (log_tells (slice_index_or logs channel [])) }
{}
