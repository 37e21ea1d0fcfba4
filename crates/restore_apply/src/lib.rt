//! Restoring a database from the files of a chain.
//!
//! To the layer above it promises: the output has its name whole or not at all, also after a crash, where none
//! could have left anything there before; what is written is what the plan's files make, applied one after
//! another to nothing, with zeros for the lock page; and each fault tells its cause, and leaves neither the name nor
//! the temporary file, where the output's disk could remove it. All memory is taken before the first byte is
//! written: one page, a piece of the output, and some bytes a file. No file is held whole.
//!
//! Stands on `ls_base`, `crash_disk`, `replica_store` and `page_cursors`, which gives the pages of many files; on
//! `ltx_format` for its proofs alone.
#![tactic(auto)]

mod applying;
mod gathered;
mod law;
#[cfg(test)]
mod lock_tests;
mod output;
mod pages;
mod restored;

pub use applying::restore;
pub use law::{
    faithful_chains_make_recorded_states, missing_pages_are_stored, plans_make_one_state,
};
pub use restored::{RestoreFault, Restored};
