//! Why bytes are no header of a log, or no valid frame of it.

use thiserror::Error;

/// The first test of a log's header that fails, in this order.
#[derive(Clone, Copy, Debug, PartialEq, Eq, Error)]
pub enum WalHeaderFault {
    /// There are fewer bytes than the 32 of a header.
    #[error("log header: too short")]
    Short,
    /// The magic is neither 0x377f0682 nor 0x377f0683.
    #[error("log header: not a log")]
    BadMagic,
    /// The version isn't 3007000.
    #[error("log header: unknown version")]
    BadVersion,
    /// The page size isn't a power of two from 512 to 65536.
    #[error("log header: bad page size")]
    BadSize,
    /// The stored sums aren't those of the first 24 bytes.
    #[error("log header: wrong checksum")]
    BadSum,
}

/// The first test of a frame that fails, in this order.
#[derive(Clone, Copy, Debug, PartialEq, Eq, Error)]
pub enum NotValid {
    /// The salts aren't those of the log's header.
    #[error("frame: other salts")]
    Salt,
    /// The page number is 0.
    #[error("frame: page number 0")]
    Zero,
    /// The stored sums aren't the running sums up to this frame.
    #[error("frame: wrong checksum")]
    Sum,
}
