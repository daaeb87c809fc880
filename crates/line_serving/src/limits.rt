//! The room for a reply's line.

/// Room for the line of any reply, in bytes, its LF counted.
pub const REPLY_ROOM: usize = 131_456;
