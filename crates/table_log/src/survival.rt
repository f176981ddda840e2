// What a stop leaves of a table.
ghost use Rattle.std.specs.Prelude.{List};
ghost use Rattle.nv_machine.specs.Lives.{Lived, IsLived};
ghost use Rattle.journal_log.specs.Log.{Holds, Log};
ghost use Rattle.table_log.specs.Tables.{IsTable, Table};
ghost use Rattle.table_log.specs.Survival.{AreTabled, TableAttempt, TableSurvives};

/// **Stopped at any moment, even within a device write, a table is restored as it was behind a first part of its calls: each key has
/// the value that the last change of it in this part gave. Told Complete, or after an honest life, each call that was told stored is in
/// the part.** What a compaction wrote and cut changes no value, whole or not.
pub fn tables_survive_any_stop()
    ensures life { (life : Lived) (log : Log) (table : Table) (attempts : List TableAttempt)
        → IsLived life → Holds life.image.memory log → IsTable log table
        → AreTabled life log table attempts → TableSurvives life table attempts }
{}
