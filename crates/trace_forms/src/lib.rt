//! The forms in which others write traces: which word of a line says what, and how its numbers are written.
#![tactic(auto)]

mod columns;
mod form;
mod naming;
mod part;
mod words;

pub use columns::{Columns, columns_of};
pub use form::{ForeignForm, Separator};
pub use naming::FormFault;
pub use part::Part;
pub use words::{number, words_of};
