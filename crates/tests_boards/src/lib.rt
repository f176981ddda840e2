//! Tests of boards over DDR4 channels on one thread, with their hosts, workers and notices, and of marks and books of notices
//! alone: what no clause says of them.
#![tactic(auto)]

#[cfg(test)]
mod again;
#[cfg(test)]
mod alone;
#[cfg(test)]
mod cases;
#[cfg(test)]
mod check;
#[cfg(test)]
mod claims;
#[cfg(test)]
mod cuts;
#[cfg(test)]
mod ends;
#[cfg(test)]
mod gates;
#[cfg(test)]
mod leaving;
#[cfg(test)]
mod marks;
#[cfg(test)]
mod notices;
#[cfg(test)]
mod opening;
#[cfg(test)]
mod places;
#[cfg(test)]
mod quiet;
#[cfg(test)]
mod silent;
#[cfg(test)]
mod sleeping;
#[cfg(test)]
mod started;
#[cfg(test)]
mod strangers;
