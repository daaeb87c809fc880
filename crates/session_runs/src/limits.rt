// The limits of a session and its summary.

/// The most commands that a session has: eleven, and as many as a number of 32 bits counts.
pub const LONGEST_SESSION: u64 = 4_294_967_306;

/// How many statuses the summary has a line for: all but OutOfOrder, which no command without a sequence number is answered with.
pub const STATUSES: usize = 16;
