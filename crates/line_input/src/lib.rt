//! Lines: how bytes in any pieces become the lines that stand between line feeds.
#![tactic(auto)]

mod laws;
mod limits;
mod lines;
#[cfg(test)]
mod tests;

pub use laws::splits_in_one_way;
pub use limits::{LARGEST_LINE, LINE_FEED};
pub use lines::{LineFed, Lines};
