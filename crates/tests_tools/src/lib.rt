//! Tests of the tools: what is told and drawn of traces, in both forms, what calls succeed, and what the program tells of itself.
#![tactic(auto)]

#[cfg(test)]
mod drawings;
#[cfg(test)]
mod foreign;
#[cfg(test)]
mod forms;
#[cfg(test)]
mod help;
#[cfg(test)]
mod profiles;
#[cfg(test)]
mod rules;
#[cfg(test)]
mod statistics;
#[cfg(test)]
mod verdicts;
