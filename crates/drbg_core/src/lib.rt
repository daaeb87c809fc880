//! HMAC_DRBG over SHA-256 (SP 800-90A Rev. 1, 10.1.2).
#![tactic(auto)]

mod generator;
#[cfg(test)]
mod tests;

pub use generator::Drbg;
