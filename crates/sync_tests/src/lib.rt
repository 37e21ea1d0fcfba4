//! Tests of syncs over a live database that never moves and a disk in memory.
//!
//! No contract can say that memory is left, or that the format of files is the one that was meant. So a database and
//! its log are synced with ample memory; the logs and the files that are to be stored were made by a program in another
//! language, from the formats alone.
//!
//! Stands on `replica_sync`, `live_gate`, `wal_follow`, `replica_store` and `crash_disk`. It holds nothing but tests.
#![tactic(auto)]

#[cfg(test)]
mod content;
#[cfg(test)]
mod rows;
#[cfg(test)]
mod syncing;
