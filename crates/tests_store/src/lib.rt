//! Tests of devices, of the store's slots on them, of the bytes of an image, and of gauges: what no clause says of them.
#![tactic(auto)]

#[cfg(test)]
mod at_once;
#[cfg(test)]
mod check;
#[cfg(test)]
mod devices;
#[cfg(test)]
mod gauges;
#[cfg(test)]
mod images;
#[cfg(test)]
mod repeats;
#[cfg(test)]
mod slots;
#[cfg(test)]
mod steps;
#[cfg(test)]
mod versions;
