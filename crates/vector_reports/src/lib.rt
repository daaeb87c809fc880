//! Reports of published test vectors: lines come from a source, and each is checked and reported as soon as it is whole.
#![tactic(auto)]

mod checking;
mod chunks;
mod laws;
mod reporting;
mod tally;
#[cfg(test)]
mod tests;
mod text;

pub use laws::has_one_report;
pub use reporting::{Reported, report_vectors};
