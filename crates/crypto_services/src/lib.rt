//! The cryptographic services: digests, MACs, authenticated encryption, key wrapping, derivation and random bits by an engine, with the keys of the vault; and noise for the module.
#![tactic(auto)]

mod digests;
mod draws;
mod generating;
mod in_place;
mod key_derivation;
mod leftmost;
mod macs;
mod noise;
mod outcome;
mod parts;
mod random_bytes;
mod sealing;
mod tags;
#[cfg(test)]
mod tests;
#[cfg(test)]
mod tests_wrapping;
mod work;
mod wrapping;

pub use digests::hash;
pub use generating::generate;
pub use key_derivation::derive;
pub use macs::mac;
pub use noise::{sample, seed};
pub use outcome::{Outcome, status_of};
pub use parts::Parts;
pub use random_bytes::{random, reseed};
pub use sealing::{open, seal, seal_iv};
pub use tags::mac_verify;
pub use work::Work;
pub use wrapping::{unwrap, wrap};
