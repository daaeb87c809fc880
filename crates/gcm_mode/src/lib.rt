//! Authenticated encryption after SP 800-38D: GCM over AES, with what is prepared once for a key.
#![tactic(auto)]

mod blocks;
mod mode;
mod prepared_key;

pub use mode::{open, seal};
pub use prepared_key::Prepared;

#[cfg(test)]
mod tests;
