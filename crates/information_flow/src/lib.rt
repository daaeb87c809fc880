//! What two machines can be told apart by that differ in secrets alone.
#![tactic(auto)]

mod laws;

pub use laws::{one_command_suffices, secrets_stay_inside, variants_run_alike};
