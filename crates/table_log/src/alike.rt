// Which table the records of a journal are.
ghost use Rattle.std.specs.Prelude.{◌≡◌, List, ℕ};
ghost use Rattle.journal_log.specs.Log.{Log};
ghost use Rattle.table_log.specs.Tables.{IsTable, Table};

/// The records of a journal are those of one table at most.
pub fn records_are_of_one_table()
    ensures alike { (log : Log) (some other : Table) → IsTable log some → IsTable log other
        → some ≡ other }
{}
