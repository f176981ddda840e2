//! Tests of a journal: what no clause says of it.
#![tactic(auto)]

#[cfg(test)]
mod lines;
#[cfg(test)]
mod module;
#[cfg(test)]
mod reads;
