//! Backups of what lines have made, and lines that are served from what a backup restores.
#![tactic(auto)]

mod backing_up;
mod limits;
mod officer;
mod restoring;
mod stepping;
#[cfg(test)]
mod tests;
mod two_keys;
mod unheard;

pub use backing_up::{BackedUp, back_up};
pub use limits::KEYS_LENGTH;
pub use restoring::{Restored, restore_and_operate};
