//! Tests of rounds of a replication, over a live database that stands still and a disk in memory.
//!
//! No contract can say that memory is left, nor what the bytes of a format ought to be. So rounds are made with ample
//! memory, and the lines that they print and the files that they leave are compared with those that were worked out
//! by hand and by a program in another language; each call on the disk and on the live database fails in turn.
//!
//! Stands on `replica_round`. It holds nothing but tests.
#![tactic(auto)]

#[cfg(test)]
mod content;
#[cfg(test)]
mod failing_live;
#[cfg(test)]
mod faults;
#[cfg(test)]
mod files;
#[cfg(test)]
mod rounds;
#[cfg(test)]
mod steps;
