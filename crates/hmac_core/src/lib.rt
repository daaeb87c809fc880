//! SHA-2 in one call, and HMAC (FIPS 198-1) over it, in one call or piece by piece.
#![tactic(auto)]

mod hasher;
mod mac;
#[cfg(test)]
mod tests;

pub use hasher::hash;
pub use mac::{MacStream, hmac};
