//! The answer of a scan to a piece of the log.

/// What a scan found in a piece of the log.
#[derive(Clone, Copy, Debug, PartialEq, Eq)]
pub enum Fed {
    /// No frame of the valid prefix ends in the piece, which was taken whole.
    All,
    /// A frame of the valid prefix ends in the piece, which was taken up to there. The rest is still to be fed.
    Frame {
        /// How many bytes of the piece were taken.
        taken: usize,
        /// The number of the frame's page.
        number: u32,
        /// The size of the database in pages after the commit, or 0 where the frame doesn't commit.
        commit: u32,
        /// The end of the frame, as an offset in bytes from the log's start.
        end: u64,
    },
}
