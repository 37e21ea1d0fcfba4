//! The listing of a replica: a line for each of its transaction files.
//!
//! It promises that an output gains exactly the listing of the files, or a front of it where the output fails. The
//! text goes out in pieces and is never held whole; no memory is taken.
//!
//! Stands on `ls_base`, on `crash_disk` for the output, on `replica_store` for names with moments, on `jiff_core` for
//! the calendar, and on `itoa` and `arrayvec` for the text.
#![tactic(auto)]

mod file_line;
mod moment;
mod printing;
#[cfg(test)]
mod tests;

pub use moment::{MOMENT_BYTES, moment_text};
pub use printing::print_listing;
