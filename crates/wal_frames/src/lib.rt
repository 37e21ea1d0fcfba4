//! The write-ahead log of a SQLite database: its header, its frames, and the scan that finds its last commit.
//!
//! `read_wal_header` and `check_frame` answer the first failed test, exactly, on any bytes. `Scan` takes the
//! log's bytes in any pieces, and gives the frames of its valid prefix, each once and in order; its last
//! commit mark and where it stopped are those of all bytes taken, however they were cut. `specs/` says what
//! the valid prefix is: it sums each whole prefix, where the code carries running sums. Memory is taken by
//! `Scan::begin` alone, for one frame.
//!
//! Stands on `ls_base`, on `ls_sums` for the sums, and on `byteorder` for the bytes of a number.
#![tactic(auto)]

mod fault;
mod fed;
mod field;
mod frame;
mod header;
mod law;
mod part;
mod scan;
#[cfg(test)]
mod tests;

pub use fault::{NotValid, WalHeaderFault};
pub use fed::Fed;
pub use frame::{Frame, check_frame, write_frame};
pub use header::{WalHeader, read_wal_header, write_wal_header};
pub use law::{log_laws, prefix_laws, view_laws};
pub use scan::Scan;
