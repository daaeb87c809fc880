//! Known answers of the published standards, as laws of the definitions: each is computed in the logic, and no code is called.
#![tactic(auto)]

mod aes;
mod derivation;
mod gcm;
mod generator;
mod hashing;
mod health;
mod wrapping;

pub use aes::{ciphers, field_products, key_expansions, substitution_tables};
pub use derivation::derived_key;
pub use gcm::{hashed_blocks, sealed_texts};
pub use generator::generated_bytes;
pub use hashing::{digests, macs};
pub use health::health_signals;
pub use wrapping::wrapped_keys;
