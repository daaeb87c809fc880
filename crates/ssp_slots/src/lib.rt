//! Sixteen slots for sensitive security parameters, wiped in place, with what is prepared of each key and what each was made from.
#![tactic(auto)]

mod prepared_keys;
mod shown;
mod slot;
mod slot_fault;
mod slot_set;
mod vault;

pub use shown::Shown;
pub use slot_fault::SlotFault;
pub use vault::Vault;

#[cfg(test)]
mod tests;
