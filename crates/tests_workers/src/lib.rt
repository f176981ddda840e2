//! Tests of boards over DDR4 channels whose hosts and workers are threads: what no clause says of them.
#![tactic(auto)]

#[cfg(test)]
mod ahead;
#[cfg(test)]
mod amid;
#[cfg(test)]
mod cases;
#[cfg(test)]
mod check;
#[cfg(test)]
mod gates;
#[cfg(test)]
mod inside;
#[cfg(test)]
mod locks;
#[cfg(test)]
mod noted;
#[cfg(test)]
mod orders;
#[cfg(test)]
mod silent;
#[cfg(test)]
mod together;
#[cfg(test)]
mod waits;
