//! Pairs out of the bytes of a transcript, which come in any pieces: each command with the head of its reply.
#![tactic(auto)]

#[cfg(test)]
mod fault_rows;
mod head_bytes;
mod laws;
mod pairs;
mod reply_faults;
#[cfg(test)]
mod tests;

pub use laws::pairs_parse_in_one_way;
pub use pairs::{PairFed, Pairs};
