// The limits of a stream, and of what is asked for at once.

/// The most bytes that one work takes from its source.
pub const STREAM_MAX: u64 = 1 << 40;

/// How many bytes the program asks its input for at once.
pub const CHUNK: usize = 65_536;
