//! Command and reply frames: how a command is encoded, how bytes in any pieces become commands, and how a reply is encoded.
#![tactic(auto)]

mod bodies;
mod command;
mod derive_body;
#[cfg(test)]
mod filling_tests;
mod frames;
mod generator_bodies;
mod head;
mod laws;
mod public_state;
mod reply;
mod request;
mod sealing_bodies;
#[cfg(test)]
mod sealing_tests;
mod shared_parts;
#[cfg(test)]
mod tests;
mod wrapping_bodies;

pub use command::Command;
pub use frames::{Fed, Frames};
pub use head::{ReplyHead, reply_head};
pub use laws::{heads_read_back, parses_in_one_way};
pub use public_state::PublicState;
pub use reply::Reply;
pub use request::{Request, read_request};
