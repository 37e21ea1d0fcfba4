//! The command `ltx`: it lists the files of a replica.
//!
//! To the top call it promises: where the answer is Done, the output has gained exactly the listing of the replica's
//! files, a line for each in list order with its size and moment; each other answer has its cause; no file is
//! changed; and where every header is good and nothing fails, the answer is Done. Takes memory for the names, moments
//! and sizes, not for the text.
//!
//! Stands on `crash_disk`, `replica_store`, `replica_listing` and `ls_answers`, and on `ltx_format` for its proofs
//! alone.
#![tactic(auto)]

mod command;
mod gathering;
mod law;
mod stop;
#[cfg(test)]
mod tests;

pub use command::list_replica;
