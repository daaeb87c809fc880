//! AES of FIPS 197 over a key schedule, and its key stream in counter mode.
#![tactic(auto)]

mod counter;
mod expansion;
mod schedule;

pub use counter::{gctr, gctr_lanes, gctr_plain};
pub use schedule::Schedule;

#[cfg(test)]
mod tests;
