//! Tests of replications over a live database that never moves or moves by a script, a disk in memory and an output in
//! memory.
//!
//! No contract can say that memory is left, or that the printed text is the one that was meant. So small databases are
//! replicated with ample memory; the logs were made by a program in another language, from the format alone.
//!
//! Stands on `replicate_command`, `live_gate`, `sim_writer`, `replica_store`, `crash_disk` and `ls_sums`. It holds
//! nothing but tests.
#![tactic(auto)]

#[cfg(test)]
mod content;
#[cfg(test)]
mod faults;
#[cfg(test)]
mod passing;
#[cfg(test)]
mod rows;
#[cfg(test)]
mod scripts;
#[cfg(test)]
mod upkeep;
