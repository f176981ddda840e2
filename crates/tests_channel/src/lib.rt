//! The tests of a channel (`chan_core`), of its write pending queue (`wpq_core`) and of its drain (`drain_core`). They stand
//! apart from these, since a crate with tests is proved a second time with them.
#![tactic(auto)]

#[cfg(test)]
mod tests;
