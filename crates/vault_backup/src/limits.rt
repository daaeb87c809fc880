// The parts of a backup and their lengths in bytes: a form of this project's own.

/// What each backup begins with.
pub const MAGIC: [u8; 4] = [0x53, 0x4d, 0x42, 0x31];

/// The length of what stands before the records: the magic bytes, and the number of the records.
pub const FRONT: usize = 5;

/// The length of a record before what is wrapped.
pub const RECORD_FRONT: usize = 8;

/// The length of the tag at the end: a whole MAC under SHA-256.
pub const TAG: usize = 32;

/// The fewest bytes that a backup has: no slot is kept.
pub const BACKUP_LEAST: usize = 37;

/// The most bytes that a backup has: sixteen slots are kept, each with a parameter of 64 bytes.
pub const BACKUP_MOST: usize = 1_317;
