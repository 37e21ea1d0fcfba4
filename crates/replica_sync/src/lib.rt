//! A sync: what changed in a live database since the newest file of a replica is stored as the next one.
//!
//! To the layer above it promises: nothing is stored where nothing changed, a piece where one was found, and else the
//! whole state; the file is of the transaction behind the newest one, it is read page by page under the gate, and its
//! pages are those of the one state that was found, whatever the writer does meanwhile (`IsFileOfFound`); it has its
//! name only once it is whole and on the disk, and begins with the header of its name's transactions; the last that is
//! asked of the log is whether it still has the salts of what was found. The follower fits again and knows its place,
//! the hold may move there, and no pass is asked for. `next_moment` is the moment that a stored file has.
//! Each refusal tells its cause. No file is held whole: one page and 64 KiB are.
//! Over a legal database of which no coincidence is counted, a replica that tells the truth goes on telling it, as read
//! and whatever a crash leaves (`faith`): after Ok about its log and the stored line, after a refusal about its log
//! or that and one line; what was retained stays so in every image, and what was stored is retained. After Ok the
//! newest transaction has a state that the database had when the call began, or later; and the stored file is exactly
//! the piece from the follower's place on or, where the log doesn't lead on from there, the whole state.
//!
//! Stands on `wal_follow`, which finds what changed, on `live_gate`, on `ltx_format`, which writes a file page by
//! page, and on `replica_store`, which puts it.
#![tactic(auto)]

mod answer;
mod gathered;
mod naming;
mod newest;
mod page_file;
mod pages;
mod storing;
mod syncing;
mod wanted;

pub use answer::SyncFault;
pub use newest::next_moment;
pub use round_line::Synced;
pub use syncing::sync;
