//! Published test vectors: a vector is a line of words, and a check makes its calls and compares what they answer.
#![tactic(auto)]

mod allowed;
mod answers;
mod checking;
mod decoding;
mod derivations;
mod kind;
mod lines;
mod names;
mod reading;
mod shapes;
mod vector;

pub use lines::{VectorRead, check_line};

#[cfg(test)]
mod tests;
