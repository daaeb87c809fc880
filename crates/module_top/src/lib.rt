//! From bytes to bytes: the program runs on its words.
#![tactic(auto)]

#[cfg(test)]
mod check_run_tests;
mod checking;
mod digesting;
#[cfg(test)]
mod file_tests;
mod laws;
mod limits;
#[cfg(test)]
mod line_run_tests;
mod loading;
mod reporting;
#[cfg(test)]
mod run_tests;
mod running;

pub use laws::{digest_line_is_read, has_one_output};
pub use program_words::RunFault;
pub use running::run;
