//! The two keys of a backup.

/// The length of the two keys in bytes: the key-encryption key's 32, and behind them the MAC key's 32.
pub const KEYS_LENGTH: usize = 64;
