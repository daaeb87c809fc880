//! Key wrapping of SP 800-38F over AES, in place: KW for whole semiblocks, KWP for any length.
#![tactic(auto)]

mod buffer;
mod kw;
mod kwp;
mod laws;
mod semiblocks;

pub use kw::{unwrap, wrap};
pub use kwp::{unwrap_pad, wrap_pad};
pub use laws::{
    kw_plaintext_is_computed, kw_plaintext_is_unique, kwp_plaintext_is_computed,
    kwp_plaintext_is_unique,
};

#[cfg(test)]
mod tests;
