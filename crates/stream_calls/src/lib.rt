//! Single calls on a source and a sink: a piece is read within a limit, and whole pieces are written.
#![tactic(auto)]

mod limits;
mod reading;
#[cfg(test)]
mod tests;
mod writing;

pub use limits::{CHUNK, STREAM_MAX};
pub use reading::read_some;
pub use writing::write_all;
