//! Key derivation in counter mode over HMAC-SHA-256 (SP 800-108 Rev. 1, 4.1).
#![tactic(auto)]

mod counter_mode;
#[cfg(test)]
mod tests;

pub use counter_mode::derive;
