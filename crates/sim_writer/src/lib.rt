//! A scripted writer: a live database in memory whose writer does what a script says.
//!
//! `SimLive` meets the trait `Live` and tells everything. `SimLive::new` begins with a legal database of which no
//! coincidence is counted. `SimLive::act` does an act exactly where it is legal, and counts it as skipped exactly
//! where it isn't: a commit appends its pages to the log as the frames of one commit, in the order of their numbers,
//! and adds an entry to the history; loose bytes stand behind the last mark; a backfill copies
//! the frames up to a mark into the database file, not past the held one; a fault fails the next call. Each act is
//! a step of a writer that keeps to the gate, and the database is legal after it. A checksum coincidence is counted
//! exactly where one comes: an entry with the place of an older one and another state, or bytes answered by `read`
//! that pass for committed ones. `specs/` says what each act does; `Sound` is what always holds.
//!
//! A commit costs its own bytes and the pages of the new state, not those of the log. The writer doesn't begin its log
//! anew or stop, and it refuses each pass.
//!
//! Stands on `live_gate`, on `checkpointer` for copying, on `wal_frames` for the bytes of frames, on `db_page` and
//! `ls_sums`.
#![tactic(auto)]

mod act;
mod commit;
mod copying;
mod emptying;
mod frames;
mod history;
mod live;
mod loose;
mod machine;
mod pages;
mod passing;
mod questions;
mod reading;
mod rest;
mod sim_live;
mod stopping;
#[cfg(test)]
mod tests;

pub use act::Act;
pub use history::History;
pub use sim_live::SimLive;
