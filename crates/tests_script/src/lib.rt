//! Tests of what scripts write, over devices that fail and lose their power too, of the command line and of stores that are
//! shown: the texts, and that calls succeed.
#![tactic(auto)]

#[cfg(test)]
mod apart;
#[cfg(test)]
mod check;
#[cfg(test)]
mod commands;
#[cfg(test)]
mod cuts;
#[cfg(test)]
mod devices;
#[cfg(test)]
mod drawings;
#[cfg(test)]
mod foreign;
#[cfg(test)]
mod kept;
#[cfg(test)]
mod names;
#[cfg(test)]
mod objects;
#[cfg(test)]
mod outlets;
#[cfg(test)]
mod profiles;
#[cfg(test)]
mod program;
#[cfg(test)]
mod run_statistics;
#[cfg(test)]
mod running;
#[cfg(test)]
mod scripts;
#[cfg(test)]
mod statistics;
#[cfg(test)]
mod stores;
#[cfg(test)]
mod verbs;
#[cfg(test)]
mod wider;
#[cfg(test)]
mod words;
