//! What `attach` and `pass` answer.

/// Whether a database is there.
#[derive(Clone, Copy, Debug, PartialEq, Eq)]
pub enum Attached {
    /// The database file is there.
    Found,
    /// There is no such file.
    Absent,
}

/// What became of a pass.
#[derive(Clone, Copy, Debug, PartialEq, Eq)]
pub enum Pass {
    /// All frames were copied into the database file, and the log is empty.
    Passed,
    /// Nothing was changed.
    Kept,
}
