//! Runs of a replication: the line that one follows, what it keeps of a replica, and how the next one begins.
//!
//! To the layer above it promises: the line is that of the newest transaction, read from the header of the first file
//! that ends with it, and none where no chain of files leads there (`newest_line`); over files that tell the truth it
//! is the newest line of the log. The laws of runs say how a run begins, what it keeps wherever a stop falls, and that
//! its end, and each crash, is a fit start of the next run.
//!
//! Stands on `ls_base`, `crash_disk`, `ltx_format`, `replica_store`, `restore_plan` and `round_line`.
#![tactic(auto)]

mod law;
mod newest;
#[cfg(test)]
mod tests;

pub use law::{
    newest_lines_are_recorded, rounds_follow, runs_begin, runs_end, runs_follow, runs_keep,
};
pub use newest::newest_line;
