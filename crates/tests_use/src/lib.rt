//! Tests of boards that are used, of waits, and of persistent writes of one thread: what no clause says of them.
#![tactic(auto)]

#[cfg(test)]
mod arming;
#[cfg(test)]
mod check;
#[cfg(test)]
mod lives;
#[cfg(test)]
mod one_thread;
