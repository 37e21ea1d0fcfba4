//! The header of a SQLite database file: is this a database in WAL mode, and what is its page size?
//!
//! `read_db_header` answers the page size exactly where each test passes, and else the fault of the first
//! test that fails (`specs/DatabaseHeader.antt` has them). It takes no memory, and nothing reaches outside.
//!
//! Stands on `ls_base`.
#![tactic(auto)]

mod fault;
mod header;
#[cfg(test)]
mod tests;

pub use fault::HeaderFault;
pub use header::read_db_header;
