//! The command `replicate`: it stores what changes in a database, in so many rounds, each with its line.
//!
//! To the top call it promises, of every run: where no checksum coincidence is counted and the replica tells the
//! truth whatever a crash leaves of it, it does so at the end and wherever a stop falls; what was printed are the
//! lines of the rounds that ended, and what they stored is retained; after Done as many rounds ended as are asked
//! for, the newest transaction is the state of the database at the run's start or a later one, the names of the
//! files are those that the rules of the rounds make of the names before, and the passes that the lines tell took
//! place; each file keeps its bytes that isn't older than the cut; each refusal has its cause, and blames no file that
//! tells the truth; the gate is given up. A run's end, and each crash in it, is a fit start of the next run. Memory is
//! taken by the rounds, not for the lines.
//!
//! Stands on `live_gate` and `crash_disk` for the objects, on `replica_store`, on `replica_runs` for the line that a
//! run follows and the laws of runs, on `wal_follow` for the follower, on `replica_round` and `round_line`, and on
//! `ls_answers`; on `ltx_format`, `replica_sync` and `replica_upkeep` for definitions and proofs alone.
#![tactic(auto)]

mod command;
mod law;
mod request;
mod rounds;
mod stop;

pub use command::replicate;
pub use law::{refused_at_once, replications_follow};
pub use request::Request;
