//! Verdicts on transcripts: one is read from a source, and whether each of its pairs is lawful is written to a sink.
#![tactic(auto)]

mod checking;
mod chunks;
mod laws;
#[cfg(test)]
mod tests;
mod text;

pub use checking::{Checked, check_transcript};
pub use laws::{has_one_verdict, verdicts_tell};
