// What the logs tell of a machine.
ghost use Rattle.std.specs.Prelude.{◌≡◌, ◌⊎◌, ◌<◌, ◌≤◌, [], ℕ, List, length, slice_index_or};
ghost use Rattle.line_memory.specs.Memory.{after, line_of};
ghost use Rattle.line_memory.specs.Parts.{below, numbered, writes_of};
ghost use Rattle.line_memory.specs.declared.Write.{Write};
ghost use Rattle.channel_log.specs.Log.{IsLogOf, LogNote, credits_out, log_tells, note_of};
ghost use Rattle.channel_log.specs.declared.entry.LogEntry.TheVariants.{Wrote};
ghost use Rattle.channel_port.specs.Answers.{IsGot, Puts};
ghost use Rattle.channel_port.specs.Carried.{WaitFrom};
ghost use Rattle.channel_port.specs.Waits.{Waits, reads_on, writes_on};
ghost use Rattle.channel_port.specs.declared.answers.Got.{Got};
ghost use Rattle.channel_set.specs.Carrying.{WaitsFrom};
ghost use Rattle.nv_machine.specs.Moves.{written};
ghost use Rattle.nv_machine.specs.State.{Machine, Setup};
ghost use Rattle.nv_machine.specs.State.{all_of, base_of_life, memory_after, pending_of, start_of_life};
ghost use Rattle.split_module.specs.OwnEvents.{looked};
ghost use Rattle.split_module.specs.Telling.{AreLogsOf, laid_out, times_logged, waits_told, with_note, with_waiting};

/// What a write that is accepted makes of what the logs tell, where it is noted with what waits on its channel then: it waits behind the
/// writes of its channel and of those before it (`puts`), and the logs tell of the machine whose life has it (`logs`).
pub fn a_write_is_told()
    ensures puts { (setup : Setup) (m : Machine) (logs : List (List LogNote)) (channel : ℕ)
        (log : List LogNote) (write : Write) → AreLogsOf setup m logs → IsLogOf logs channel log
        → Puts (all_of m) channel m.waits (laid_out (waits_told (with_note channel log
        (note_of (Wrote (numbered (all_of m) write))
        (with_waiting (all_of m) channel (log_tells log).waits)) logs))) }
    ensures logs { (setup : Setup) (m : Machine) (logs : List (List LogNote)) (channel : ℕ)
        (log : List LogNote) (write : Write) → AreLogsOf setup m logs → IsLogOf logs channel log
        → setup.shape.channel_of write.line ≡ channel → channel < setup.shape.channels
        → let noted = with_note channel log (note_of (Wrote (numbered (all_of m) write))
        (with_waiting (all_of m) channel (log_tells log).waits)) logs in
        AreLogsOf setup (record m {
          life = written m.mode m.life write;
          waits = laid_out (waits_told noted);
        }) noted }
{}

/// A read that its channel answers so, by what waits there, is answered so by all that waits.
pub fn a_read_is_told()
    ensures { (setup : Setup) (m : Machine) (logs : List (List LogNote)) (channel : ℕ)
        (log : List LogNote) (bytes : List ℕ) (line at : ℕ) (got : Got) (waits : Waits)
        → AreLogsOf setup m logs → IsLogOf logs channel log
        → IsGot bytes line at channel got (log_tells log).waits waits
        → IsGot bytes line at channel got m.waits
        (laid_out (waits_told (looked channel log waits logs))) }
{}

/// What the logs of all channels tell of a life. Each number from its start to its last write stands once in all of them together
/// (`once`), and no other number does (`never`). A line of the memory after the first n writes is told by the log of its channel
/// alone (`line`).
pub fn logs_tell_the_history()
    ensures once { (setup : Setup) (m : Machine) (logs : List (List LogNote)) (number : ℕ)
        → AreLogsOf setup m logs → start_of_life m.life ≤ number → number < all_of m
        → times_logged number logs ≡ 1 }
    ensures never { (setup : Setup) (m : Machine) (logs : List (List LogNote)) (number : ℕ)
        → AreLogsOf setup m logs → (number < start_of_life m.life) ⊎ (all_of m ≤ number)
        → times_logged number logs ≡ 0 }
    ensures line { (setup : Setup) (m : Machine) (logs : List (List LogNote)) (n line : ℕ)
        → AreLogsOf setup m logs → setup.shape.channel_of line < setup.shape.channels
        → line_of (memory_after m n) line
        ≡ line_of (after (base_of_life m.life) (writes_of (below n (log_tells
        (slice_index_or logs (setup.shape.channel_of line) [])).written))) line }
{}

/// What the logs of all channels tell of what waits: how many writes of a channel (`writes`), and how many of its reads (`reads`);
/// how many writes in all, which is how many credits are out (`credits`). And where on each channel all of its writes from a number
/// on wait, all of the life's do (`held`).
pub fn logs_tell_what_waits()
    ensures writes { (setup : Setup) (m : Machine) (logs : List (List LogNote)) (channel : ℕ)
        → AreLogsOf setup m logs → channel < length logs → writes_on channel m.waits.writes
        ≡ length (log_tells (slice_index_or logs channel [])).waits.writes }
    ensures reads { (setup : Setup) (m : Machine) (logs : List (List LogNote)) (channel : ℕ)
        → AreLogsOf setup m logs → channel < length logs → reads_on channel m.waits.reads
        ≡ length (log_tells (slice_index_or logs channel [])).waits.reads }
    ensures credits { (setup : Setup) (m : Machine) (logs : List (List LogNote))
        → AreLogsOf setup m logs → credits_out logs ≡ pending_of m }
    ensures held { (setup : Setup) (m : Machine) (logs : List (List LogNote)) (n : ℕ)
        → AreLogsOf setup m logs → start_of_life m.life ≤ n
        → ((channel : ℕ) → channel < length logs
        → WaitFrom n (log_tells (slice_index_or logs channel [])).written
        (log_tells (slice_index_or logs channel [])).waits.writes)
        → WaitsFrom n (all_of m) m.waits.writes }
{}
