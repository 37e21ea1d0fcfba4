//! Real files as a disk.
//!
//! `FileDisk` is the trait `Disk` of `crash_disk` over the files below a folder. What a file does is beyond any
//! contract, so it tells no content. To the layer above: each call answers a fault only where the count of faults
//! rose, and nothing is buffered, so that what a call wrote before it returned has gone to the system. The files
//! that were used last stay open, and those of a name that changes are closed: a call never reads or writes the
//! file that had the name before.
//!
//! Beside it stand the calls that other objects over real files use: `counted` raises their count of faults, and
//! `fill` and `write_whole` go through the system until all bytes have gone.
//!
//! Stands on `crash_disk` for the trait, on `ls_base` for the cause of a fault, and on `lru` for the files that
//! stay open.
#![tactic(auto)]

mod counting;
mod disk;
mod folder_files;
mod folders;
mod open_file;
mod open_files;
mod real_file;
#[cfg(test)]
mod tests;

pub use counting::counted;
pub use disk::FileDisk;
pub use real_file::{FILE_LIMIT, fill, size_of, unless_absent, within_limit, write_whole};
