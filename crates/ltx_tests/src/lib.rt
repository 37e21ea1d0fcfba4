//! Tests of the files of transactions that are read from a disk.
//!
//! No contract can say that memory is left, or that the format is the one that was meant. So a file with an index
//! is written into a disk in memory, is read by its index alone and page by page, and a byte of it is changed; what
//! is answered then was worked out by hand from the format. A disk that reads short, and doesn't tell its content,
//! gives the same answers.
//!
//! Stands on `ltx_reader`, `ltx_format`, `crash_disk` and `ls_base`. It holds nothing but tests.
#![tactic(auto)]

#[cfg(test)]
mod content;
#[cfg(test)]
mod index_faults;
#[cfg(test)]
mod indexes;
#[cfg(test)]
mod short_disk;
#[cfg(test)]
mod short_readings;
