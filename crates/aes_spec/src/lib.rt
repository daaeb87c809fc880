//! AES and counter mode as FIPS 197 and SP 800-38D define them, and the laws of these definitions.
#![tactic(auto)]

mod laws;

pub use laws::{
    decryption_undoes_encryption, encryption_undoes_decryption, gctr_undoes_itself, inverse_law,
    power_law,
};
