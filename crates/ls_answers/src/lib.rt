//! How a command ends, and what is said of it.
//!
//! To the commands above it promises: each answer has its exit status; each refusal puts one line to the error
//! output that tells what was refused and where, or a front of it where that output fails; and where nothing was
//! refused nothing is put. Takes no memory, so want of memory is told like any other refusal.
//!
//! Stands on `ls_base`, on `crash_disk` for the output, on `db_page`, `ls_words`, `ltx_format` and `replica_store` for
//! what is told, and on `itoa` and `arrayvec` for the text.
#![tactic(auto)]

mod database;
mod outcome;
mod reason;
mod saying;
#[cfg(test)]
mod tests;
mod usage;

pub use outcome::{Broken, Outcome, Why};
pub use saying::say;
