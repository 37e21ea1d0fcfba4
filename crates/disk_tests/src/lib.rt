//! Tests of the disk and the output in memory.
//!
//! No contract can say that memory is left, or that the rules of crashes are those that were meant. So each
//! public call is made with ample memory, and short lists of calls are crashed by each choice; what may then
//! stand under a name was worked out by hand from the rules, as the disk of a real machine has them.
//!
//! Stands on `crash_disk` alone. It holds nothing but tests.
#![tactic(auto)]

#[cfg(test)]
mod content;
#[cfg(test)]
mod crash_rows;
#[cfg(test)]
mod crashes;
#[cfg(test)]
mod faults;
#[cfg(test)]
mod output;
#[cfg(test)]
mod step;
#[cfg(test)]
mod values;
