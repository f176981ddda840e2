//! The tests of a module (`module_core`) on DDR4 channels (`ddr4_port`), from a formatted device on. They stand apart from
//! both, since a crate with tests is proved a second time with them.
#![tactic(auto)]

#[cfg(test)]
mod at_once;
#[cfg(test)]
mod cases;
#[cfg(test)]
mod check;
#[cfg(test)]
mod cuts;
#[cfg(test)]
mod dark;
#[cfg(test)]
mod load;
#[cfg(test)]
mod notices;
#[cfg(test)]
mod repeats;
#[cfg(test)]
mod runs;
#[cfg(test)]
mod wild;
