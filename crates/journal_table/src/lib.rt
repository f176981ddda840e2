//! A table on a journal in a module: keys and values as records, of which the last one of a key decides. A compaction writes what
//! lives once more and truncates the rest. What a stop leaves of it is said in `tables_survive_any_stop` of `table_log`.
#![tactic(auto)]

mod compaction;
mod laws;
mod record;
mod table;
mod values;

pub use laws::tables_live;
pub use record::{Parts, put_record, read_record, remove_record};
pub use table::{CompactRefusal, JournalTable, TableRefusal};
