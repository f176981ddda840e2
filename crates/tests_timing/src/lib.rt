//! The tests of the timing rules (`ddr4_timing`), of maps (`interleave_map`), of banks (`bank_core`) and of the scheduler
//! (`frfcfs`). They stand apart from these, since a crate with tests is proved a second time with them.
#![tactic(auto)]

#[cfg(test)]
mod tests;
