//! The self-tests of the module: known answers of the engine, and the integrity of an image.
#![tactic(auto)]

mod answers;
mod image;
mod known_answers;
mod numbers;
mod table;
mod test_set;
#[cfg(test)]
mod tests;

pub use image::{image_digest, integrity};
pub use known_answers::known_answer;
pub use numbers::Test;
pub use test_set::Tested;
