//! The words after the program's name, the file of an image's digest, and the faults with their exit statuses and texts.
#![tactic(auto)]

mod digest_file;
mod faults;
mod limits;
#[cfg(test)]
mod tests;
mod words;

pub use digest_file::digest_of;
pub use faults::RunFault;
pub use limits::{LARGEST_COUNT, LARGEST_SEED};
pub use words::{FileNames, Form, Work, form_of};
