//! That the machine leaves lawful transcripts: what was commanded and what it answered always passes the check that needs no key.
#![tactic(auto)]

mod laws;

pub use laws::{blanked_bytes_stay_lawful, runs_leave_lawful_transcripts};
