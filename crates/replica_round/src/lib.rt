//! A round of a replication: what changed in a live database is stored, the gate's hold moves on, a long log is
//! emptied, and the replica is kept in order.
//!
//! To the layer above it promises: a sync stores what changed since the follower's place as the next transaction, or
//! nothing where nothing changed; behind it the gate is held at the end of the place that is then recorded. A pass is
//! asked once where the log has 1000 frames or more up to there, and else none (`Rounds`). Then the names of the files
//! with their moments become exactly those of the rule of levels and retention (`StoresRound`, `IsRounded`). Over a
//! legal database of which no coincidence is counted, a replica that tells the truth goes on telling it, as read and
//! whatever a crash leaves: what is young and was retained stays so, and the end of a round is a fit beginning of the
//! next (`RoundKeepsFaith`). Each refusal tells its cause, and blames no file that tells the truth. Memory is taken for
//! one list of the files, and for one page and 64 KiB of a file.
//!
//! Stands on `replica_sync`, which stores, on `replica_upkeep`, which merges and drops, on `replica_store`, which lists,
//! on `wal_follow` and on `live_gate`.
#![tactic(auto)]

mod changing;
mod keeping;
mod passing;
mod rounding;
mod stop;

pub use round_line::Round;
pub use rounding::round;
pub use stop::RoundStop;
