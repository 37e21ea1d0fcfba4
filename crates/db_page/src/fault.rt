//! Why bytes are no header of a database in WAL mode.

use thiserror::Error;

/// The first test of a database header that fails, with what was found.
#[derive(Clone, Copy, Debug, PartialEq, Eq, Error)]
pub enum HeaderFault {
    /// There are only so many bytes, fewer than the 100 of a header.
    #[error("database header: {0} bytes")]
    Short(usize),
    /// The first 16 bytes aren't `SQLite format 3` and a zero byte.
    #[error("database header: not a database")]
    NotDatabase,
    /// The page size field has this value, which is neither 1 nor a power of two from 512 to 32768.
    #[error("database header: page size field {0}")]
    BadPageSize(u16),
    /// The write version and the read version aren't both 2, as they are in WAL mode.
    #[error("database header: not in WAL mode ({write}, {read})")]
    NotWalMode { write: u8, read: u8 },
}
