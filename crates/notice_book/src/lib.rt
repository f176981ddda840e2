//! The book of notices: callbacks that are called once, when the write of their number is persistent.
//!
//! Each stands in the book with its number, and with the fact that it may be called at any mark above that number. What a
//! book is to its callers is in `specs/NoticeBooks.antt`.
#![tactic(auto)]

mod book;
mod entry;
mod notices;

pub use book::{Full, InsertRefusal, NoticeBook};
pub use entry::{Called, Entry, Notice, Persisted};
pub use notices::Notices;
