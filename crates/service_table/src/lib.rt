//! The table of services: numbers, states in which each is permitted, classes of output, approved uses, known-answer tests and answers.
#![tactic(auto)]

mod answers;
mod approval;
mod class;
mod failure;
mod known_answer;
mod laws;
mod service;
mod state;
mod status;
#[cfg(test)]
mod tests;

pub use answers::may_answer;
pub use approval::{Approval, approval_of, approved, is_cryptographic};
pub use class::{Class, class_of};
pub use failure::Failure;
pub use known_answer::test_of;
pub use laws::table_laws;
pub use service::{Service, permitted, service_of};
pub use state::State;
pub use status::Status;
