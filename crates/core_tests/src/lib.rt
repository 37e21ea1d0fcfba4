//! Tests of the top call over disks and outputs in memory.
//!
//! No contract can say that memory is left, or that the rules are those that were meant. So whole commands are
//! carried out with ample memory, and their answers, printed lines and outputs are compared with what was
//! worked out by hand; the sums of the replica's files are from a program in another language. Each call on a
//! disk fails in its turn, and a restore is stopped behind each of its calls and crashed by each choice.
//!
//! Stands on `litestream_core` and the crates of its arguments and answers. It holds nothing but tests.
#![tactic(auto)]

#[cfg(test)]
mod answers;
#[cfg(test)]
mod carrying;
#[cfg(test)]
mod damage;
#[cfg(test)]
mod faults;
#[cfg(test)]
mod files;
#[cfg(test)]
mod rows;
#[cfg(test)]
mod stops;
#[cfg(test)]
mod told;
