// The limits of files and of memory.

/// The most bytes of the program's image.
pub const LARGEST_IMAGE: usize = 16_777_216;

/// The most bytes of a digest file: 64 digits and an LF.
pub const LARGEST_DIGEST_FILE: usize = 65;

/// How many bytes a vector's check works in.
pub const VECTOR_WORK: usize = 131_456;
