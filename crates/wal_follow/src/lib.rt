//! What a follower of a live database keeps from one recorded state to the next, and what a piece of a log is.
//!
//! It promises the layer above: the laws of pieces, that a piece makes the later state of the recorded one and
//! changes nothing when it is applied again (`piece_laws`); that a follower goes on fitting a live database
//! under the gate, whatever its writer does, and fits what a pass at its place leaves (`follow_laws`); what
//! `start`, `stored` and `passed` keep; the page of what was found (`page`), and that the log still has the
//! salts of it (`confirm`).
//! `next` finds what became of the database since the place: over a told live database its answer is the
//! last mark of the log, or the database file where the log has none, with the pages of the piece since the
//! place, and `Lost` only where the log doesn't lead on from there; the follower fits what it found (`Follows`).
//! That it answers, what it keeps and learns, and the causes of its faults hold of every live database. No call asks
//! for a pass.
//!
//! It stands on the trait of a live database (`live_gate`), on pages by a map of offsets (`snapshot_read`), on
//! the scan of a log (`wal_frames`) and on the database header (`db_page`).
#![tactic(auto)]

mod answer;
mod confirm;
mod database;
mod fault;
mod follower;
mod following;
mod gather;
mod gathering;
mod law;
mod log_scan;
mod next;
mod offset;
mod page;
mod reading;
#[cfg(test)]
mod silent_live;
#[cfg(test)]
mod tests;
mod wanted;

pub use answer::{Found, Next, Wanted};
pub use fault::{Broken, FollowFault};
pub use follower::Follower;
pub use law::{follow_laws, piece_laws};
