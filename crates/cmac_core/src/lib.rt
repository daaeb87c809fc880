//! CMAC with AES (SP 800-38B), whole or in pieces, and key derivation over it (SP 800-108 Rev. 1).
#![tactic(auto)]

mod derivation;
mod doubling;
mod laws;
mod stream;

pub use derivation::{Mode, kdf};
pub use doubling::subkeys;
pub use laws::padding_determines_the_text;
pub use stream::{CmacStream, cmac};

#[cfg(test)]
mod tests;
