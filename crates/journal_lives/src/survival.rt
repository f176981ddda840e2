// What a stop leaves of a journal.
ghost use Rattle.std.specs.Prelude.{◌∷◌, List};
ghost use Rattle.nv_machine.specs.Lives.{Lived, AreChained, IsLived};
ghost use Rattle.journal_log.specs.Log.{Holds, Log};
ghost use Rattle.journal_log.specs.Calls.{Attempt};
ghost use Rattle.journal_lives.specs.Promise.{AreJournaled, IsJournaled, JournalSurvives, JournalsSurvive};

/// **Stopped at any moment, even within a device write, the journal of a module is restored with the records that it had and those
/// of a first part of its calls; told Complete, or after an honest life, with each record that was told stored.** No record is there
/// in part, none that wasn't appended, and none is gone but by a truncation (`life`). Over a chain of lives each goes on with what
/// the one before left (`lives`).
pub fn journals_survive_any_stop()
    ensures life { (life : Lived) (log : Log) (attempts : List Attempt) → IsLived life
        → Holds life.image.memory log → IsJournaled life log attempts
        → JournalSurvives life log attempts }
    ensures lives { (life : Lived) (lives : List Lived) (log : Log)
        (attempts : List (List Attempt)) → AreChained (life ∷ lives)
        → Holds life.image.memory log → AreJournaled (life ∷ lives) log attempts
        → JournalsSurvive life lives log attempts }
{}
