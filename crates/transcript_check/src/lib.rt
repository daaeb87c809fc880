//! A checker of transcripts: whether each reply keeps the rules of a lawful step. It needs no key and nothing of the machine.
#![tactic(auto)]

mod beginning;
mod checker;
mod effects;
mod laws;
mod reply_form;
mod request_facts;
#[cfg(test)]
mod tests;
#[cfg(test)]
mod transcript_rows;

pub use checker::Checker;
pub use laws::{entered_bytes_may_be_blanked, first_no_tells, walks_are_determined};
