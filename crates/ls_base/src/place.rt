//! The place of a recorded state.

/// Where a recorded state stands: at the end of a commit frame of the log, or at rest in the database
/// file, where the log has no commit.
#[derive(Clone, Copy, Debug, PartialEq, Eq)]
pub enum Place {
    /// Behind a commit frame of the log with these salts: the frame's end as an offset in bytes from
    /// the log's start, and the running sums there (SQLite database file format, section 4.1).
    Wal {
        salt1: u32,
        salt2: u32,
        end: u64,
        s0: u32,
        s1: u32,
    },
    /// The database file alone, by the sum over its pages.
    Rest {
        sum: u64,
    },
}
