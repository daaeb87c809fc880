//! Sessions that are run through the module, and their summaries.
#![tactic(auto)]

mod laws;
mod limits;
mod running;
mod summaries;
#[cfg(test)]
mod summary_rows;
mod tally;
#[cfg(test)]
mod tests;

pub use laws::sessions_are_counted;
pub use running::run_session;
