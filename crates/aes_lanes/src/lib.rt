//! AES by look-ups of nibbles in vectors: no place in memory that depends on a key or a text is read.
#![tactic(auto)]

mod inverse;
mod keys;
mod nibbles;
mod power_rounds;
mod power_stream;
mod powers;
mod single;
mod sixteen;
mod stream;
mod tables;

pub use inverse::deciphered;
pub use keys::round_key;
pub use power_stream::add_stream_by_powers;
pub use single::{enciphered, sub_word};
pub use stream::add_stream;
