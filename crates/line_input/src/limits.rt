//! The form of a line: rules of this project's own.

/// The byte LF, with which a line ends and which is no part of it.
pub const LINE_FEED: u8 = b'\n';

/// The most bytes that a line has, its LF not counted.
pub const LARGEST_LINE: usize = 131_400;
