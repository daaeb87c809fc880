//! GHASH of SP 800-38D: the product of two blocks, and the running value over blocks of bytes.
#![tactic(auto)]

mod absorb;
mod bitwise;
mod by_places;
mod fold;
mod key_places;
mod key_table;
mod lanes;
mod nibbles;
mod place;
mod product;

pub use key_table::Table;

#[cfg(test)]
mod tests;
