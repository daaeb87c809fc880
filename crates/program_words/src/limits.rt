// The limits of the numbers in words.

/// The largest seed of a session.
pub const LARGEST_SEED: u64 = u64::MAX;

/// The most commands that a session draws.
pub const LARGEST_COUNT: u64 = 100_000;
