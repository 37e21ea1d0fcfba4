//! A commit mark of the log.

/// The end of a commit frame of the log: the salts of the frame, its end as an offset in bytes from the
/// log's start, the running sums there, and the size of the database in pages after the commit (SQLite
/// database file format, section 4.1).
#[derive(Clone, Copy, Debug, PartialEq, Eq)]
pub struct Mark {
    pub salt1: u32,
    pub salt2: u32,
    pub end: u64,
    pub s0: u32,
    pub s1: u32,
    pub commit: u32,
}
