//! The limits of the module's data, which all crates share: rules of this project's own.

/// The most bytes that a command's body has.
pub const LARGEST_BODY: usize = 65_600;

/// The most bytes that a reply's payload has.
pub const LARGEST_PAYLOAD: usize = 65_664;
