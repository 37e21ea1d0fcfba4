//! Tests of the replica's files over a disk in memory.
//!
//! No contract can say that memory is left, or that the rules of crashes are those that were meant. So each
//! public call is made with ample memory, and puts and drops are stopped behind each of their calls and
//! crashed by each choice; what may then stand under a name was worked out by hand from the rules. Two steps of a
//! replica, two puts and two drops, have contracts by the laws of a replica that no stop harms.
//!
//! Stands on `replica_store` and `crash_disk`. It holds nothing but tests.
#![tactic(auto)]

#[cfg(test)]
mod changes;
#[cfg(test)]
mod content;
#[cfg(test)]
mod damage_texts;
#[cfg(test)]
mod faults;
#[cfg(test)]
mod headers;
#[cfg(test)]
mod lists;
#[cfg(test)]
mod putting;
#[cfg(test)]
mod step_stops;
#[cfg(test)]
mod steps;
#[cfg(test)]
mod stops;
