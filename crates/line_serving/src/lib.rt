//! Commands that an operator types, a line each, and their replies as lines.
#![tactic(auto)]

mod bad_line;
mod laws;
mod limits;
mod line_codec;
mod operating;
mod taking;
#[cfg(test)]
mod tests;

pub use bad_line::write_bad_line;
pub use laws::{faults_are_bad_lines, lines_are_never_truncated};
pub use line_codec::LineCodec;
pub use line_input::LARGEST_LINE;
pub use operating::{Operated, operate};
