//! How far a reader is.

use ltx_format::LtxFault;

/// How far the reader of a file is.
#[derive(Clone, Copy, Debug, PartialEq, Eq)]
pub enum Progress {
    /// It stands before a block.
    Going,
    /// It knows the number of the next block, and stands before its page.
    AtNumber(u32),
    /// It has read the whole file, which has no fault.
    Ended,
    /// It has found this fault of the file.
    Failed(LtxFault),
}
