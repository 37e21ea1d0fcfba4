//! Tests of merges over a disk in memory.
//!
//! No contract can say that memory is left, or that the rules of crashes are those that were meant. So a run of two
//! files is merged with ample memory, and the merge is stopped behind each of its calls and crashed by each choice; the
//! bytes of the merged file were computed by a program in another language, and what may then stand under its name was
//! worked out by hand from the rules.
//!
//! Stands on `compact_levels`, `replica_store` and `crash_disk`. It holds nothing but tests.
#![tactic(auto)]

#[cfg(test)]
mod content;
#[cfg(test)]
mod faults;
#[cfg(test)]
mod merges;
#[cfg(test)]
mod merging;
#[cfg(test)]
mod stops;
