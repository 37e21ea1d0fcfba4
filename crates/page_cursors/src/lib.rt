//! Pages of many files, by rising number, each from the last file that has it.
//!
//! `Waiting` keeps the number with which each file's cursor waits, and gives the least; of equal ones that of the
//! earliest cursor. It takes memory when it is made and none later. `Wanted` knows which numbers a file of a chain
//! must still hold: what no state before it has. The law `last_pages_make_states` says that the last page of each
//! number is then the page of the state.
//!
//! `Cursors` goes through the files of a plan, one cursor a file and one page in memory. `begin` takes all memory;
//! `next` gives the page of the next number, the last file's that has it, and at the end says that all files were
//! read to their ends, that none is damaged, and that each holds the pages that no state before it has. Otherwise
//! the answer is the first damaged file with its first fault, or where none is damaged the first page that is
//! missing. The last pages are then those of the files (`HaveRead`).
//!
//! Stands on `ls_base`, `crash_disk`, `ltx_format`, `ltx_reader`, which reads one file page by page, and
//! `replica_store`, whose `specs/Applying.antt` says what changes make.
#![tactic(auto)]

mod cursor;
#[cfg(test)]
mod cursor_tests;
mod cursors;
mod ending;
mod fault;
mod law;
mod opening;
#[cfg(test)]
mod tests;
mod waiting;
mod wanted;

pub use cursor::Cursor;
pub use cursors::Cursors;
pub use fault::CursorsFault;
pub use law::last_pages_make_states;
pub use waiting::Waiting;
pub use wanted::Wanted;
