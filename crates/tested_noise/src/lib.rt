//! Samples of noise, each tested with all that came before it.
#![tactic(auto)]

mod samples;
#[cfg(test)]
mod tests;

pub use samples::{take_sample, take_samples};
