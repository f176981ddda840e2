//! Tests of the texts of profiles, of scripts and of answers, which no clause says, and of modes and their refusals.
#![tactic(auto)]

#[cfg(test)]
mod answers;
#[cfg(test)]
mod check;
#[cfg(test)]
mod modes;
#[cfg(test)]
mod profiles;
#[cfg(test)]
mod scripts;
