//! Random bits: the generator of an engine, seeded with samples of tested noise.
#![tactic(auto)]

mod draws;
#[cfg(test)]
mod tests;

pub use draws::{RESEED_SAMPLES, SEED_SAMPLES, draw, instantiate, reseed};
