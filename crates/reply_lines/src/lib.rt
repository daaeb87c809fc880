//! Reply lines: how a reply is written as a line of text.
#![tactic(auto)]

mod names;
#[cfg(test)]
mod tests;
mod writing;

pub use names::state_name;
pub use writing::write_line;
