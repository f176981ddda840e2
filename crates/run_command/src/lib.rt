//! The command `run`: a script over closures of both ready-made maps, and the store that it leaves.
#![tactic(auto)]

mod answered;
mod lives;
mod maps;
mod printer;
mod refused;
mod requests;
mod script;
mod statistics;
mod stored;

pub use maps::{report_on_maps, run_on_maps};
pub use printer::AnswerPrinter;
pub use refused::why_no_store;
pub use script::{RunWords, StoreWord, run_named};
pub use stored::{StoredFault, report_on_bytes, run_on_store};
