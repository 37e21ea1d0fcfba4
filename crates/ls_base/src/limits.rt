//! How large a database and its log may be.

/// The most bytes that a database has: 2^40.
pub const DATABASE_LIMIT: u64 = 1 << 40;

/// The most bytes that a log has: 2^32.
pub const LOG_LIMIT: u64 = 1 << 32;
