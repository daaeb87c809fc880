//! The commands that lines of text make, one behind the other: definitions, and their laws.
#![tactic(auto)]

mod laws;

pub use laws::lines_make_commands_in_one_way;
