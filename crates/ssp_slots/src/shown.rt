//! What a slot tells of itself.
use bits_core::Header;

/// What a slot tells of itself: never a byte of its parameter.
#[derive(Clone, Copy, Debug, PartialEq, Eq)]
pub struct Shown {
    pub full: bool,
    /// None where the slot is empty.
    pub header: Option<Header>,
    /// The parameter's length in bytes, 0 where the slot is empty.
    pub length: usize,
}
