//! The order of bytes in a word.

/// The order in which the checksum of a log reads the four bytes of a word.
#[derive(Clone, Copy, Debug, PartialEq, Eq)]
pub enum Order {
    /// The lowest byte first.
    Little,
    /// The highest byte first.
    Big,
}
