//! Tests of a device in a file, over a file in memory and over one of the system: what no clause says of them.
#![tactic(auto)]

#[cfg(test)]
mod host;
#[cfg(test)]
mod model;
#[cfg(test)]
mod sectors;
