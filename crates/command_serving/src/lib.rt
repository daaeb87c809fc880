//! A stream of commands, served to its end by any grammar of commands and replies; the grammar of frames.
#![tactic(auto)]

mod answering;
mod codec;
mod dead_stack;
mod frame_codec;
mod serving;
#[cfg(test)]
mod tests;

pub use codec::{Codec, Decoded};
pub use serving::{Ended, serve, serve_stream, wipe_served};
