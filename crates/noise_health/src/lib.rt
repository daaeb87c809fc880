//! The health tests of a noise source: which samples are unhealthy, exactly.
#![tactic(auto)]

mod health;
#[cfg(test)]
mod tests;

pub use health::{Health, HealthFault};
