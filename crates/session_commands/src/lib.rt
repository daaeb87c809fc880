//! Sessions: large lists of valid commands that a number makes.
#![tactic(auto)]

mod drawing;
#[cfg(test)]
mod session_rows;
mod sessions;
#[cfg(test)]
mod tests;

pub use sessions::Session;
