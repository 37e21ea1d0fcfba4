//! The top call of `litestream`: it reads the words of a command, carries the command out over the disks
//! and the output that it is handed, and answers with one cause.
//!
//! To `main` it promises: a replication keeps a replica that tells the truth, wherever a stop falls; what a restore
//! writes is what the database had at the transaction that is asked for, where the replica's files tell the truth; a
//! crash leaves that under the output's name or nothing, where none could have left anything there before; a listing is
//! that of the replica's files; each answer has its cause, and each refusal is said in one line. The contract of
//! `litestream` says so, command by command; the program's `main` makes this one call on the real objects. `replicate`,
//! `restore` and `ltx` are the commands that are built.
//!
//! Stands on `ls_base`, `crash_disk`, `live_gate`, `ls_words`, `replica_store`, `restore_plan`, `restore_apply`,
//! `ls_answers`, `ltx_command` and `replicate_command`, on `ltx_format` and `page_cursors` for its proofs alone, and on
//! `itoa` and `arrayvec` for the line that is printed.
#![tactic(auto)]

mod asked;
mod command;
mod law;
mod line;
mod listing;
mod prepare;
mod replication;
mod request;

pub use command::litestream;
pub use ls_answers::{Outcome, Why};
