//! The machine: its state, and one step for one command.
#![tactic(auto)]

mod commit;
mod cryptographic;
mod entry;
mod laws;
mod module;
mod self_testing;

pub use laws::{
    answers_are_of_the_table, data_needs_a_role, numbers_are_in_order, refusals_change_nothing,
    services_are_complete, services_mean_the_standards, steps_keep_the_rules, zeroising_empties,
};
pub use module::Module;
