//! Tests of a life that is talked with: what no clause says of it.
#![tactic(auto)]

#[cfg(test)]
mod lives;
#[cfg(test)]
mod talk;
