//! Numbers, slots and byte buffers on which every other crate stands.
#![tactic(auto)]

mod algorithm;
mod byte_list;
mod limits;
mod outbox;
mod parameter;
mod port;

pub use algorithm::Alg;
pub use byte_list::{same, wipe, xor_into};
pub use limits::{LARGEST_BODY, LARGEST_PAYLOAD};
pub use outbox::Outbox;
pub use parameter::{Domain, Header, Kind, SlotId, fits};
pub use port::{Enabled, Inhibited, Port};

#[cfg(test)]
mod tests;
