//! A vault's exportable slots as one sequence of bytes, wrapped and authenticated, and back into a vault.
#![tactic(auto)]

mod form;
mod laws;
mod limits;
mod record;
mod restore_fault;
mod restoring;
mod wrappings;
mod writing;

pub use laws::{
    answers_in_one_way, backups_have_the_form, backups_tell_kept_slots_alone, parses_in_one_way,
    restores_what_was_kept,
};
pub use limits::{BACKUP_LEAST, BACKUP_MOST};
pub use restore_fault::RestoreFault;
pub use restoring::restore;
pub use writing::backup;

#[cfg(test)]
mod tests;
