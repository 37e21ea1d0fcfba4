//! Tests of the upkeep of a replica over a disk in memory.
//!
//! No contract can say that memory is left, or that the rules of merging, dropping and crashes are those that were
//! meant. So the lists that were worked out by hand are kept with ample memory, each call of an upkeep fails in turn, and
//! the machine stops behind each of them and crashes by each choice.
//!
//! Stands on `replica_upkeep`, `replica_store`, `crash_disk` and `ls_sums`. It holds nothing but tests.
#![tactic(auto)]

#[cfg(test)]
mod faults;
#[cfg(test)]
mod file;
#[cfg(test)]
mod replica;
#[cfg(test)]
mod rows;
#[cfg(test)]
mod stops;
