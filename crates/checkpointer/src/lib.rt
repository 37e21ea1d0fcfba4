//! Checkpoints of a write-ahead log (SQLite database file format, section 4.3): its frames are copied into the
//! database file, and the log is begun anew.
//!
//! `backfill` copies the frames up to a commit: from its Ok on the state of the two files is the one that was
//! read before, as read and whatever a crash leaves; at any moment before, a crash leaves a state that it might
//! have left before. `restart` empties a log of which everything was copied, with the same promise.
//!
//! Stands on `ls_base`, `crash_disk` and `wal_frames`.
#![tactic(auto)]

mod backfilling;
mod copied;
mod copying;
mod fault;
mod finding;
mod gathering;
mod reading;
mod restarting;
#[cfg(test)]
mod tests;

pub use backfilling::backfill;
pub use copied::Copied;
pub use fault::{BackfillFault, RestartFault};
pub use restarting::restart;
