//! The files of a replica on its disk: their names, lists of them, their headers, and how they are put, read and
//! dropped.
//!
//! To the layer above it promises: a name is read exactly where a text is the one that it writes; a list has each
//! name of the replica once and in order; a header is one of its name's transactions; a file that is put stands
//! under its name whole or as it was, whatever a crash takes; and a fault comes only where the disk's own count of
//! faults rose or stands at its last value. Only lists and the reading of a whole file take memory.
//!
//! The crates above share what `specs/` says of chains of files, of what they make, and of files that tell the
//! truth about a database.
//!
//! Stands on `ls_base`, `crash_disk` and `ltx_format`.
#![tactic(auto)]

mod dated_names;
mod draft;
mod error;
mod fetching;
mod file_name;
mod file_names;
mod heading;
mod law;
mod listing;
mod name_text;
mod put;
mod reading;
mod settling;
mod stop_law;
#[cfg(test)]
mod tests;

pub use dated_names::{Dated, DatedNames};
pub use error::{Damage, StoreError};
pub use fetching::get;
pub use file_name::FileName;
pub use file_names::FileNames;
pub use heading::{dated, header_of};
pub use law::{files_have_one_list, replicas_can_be_faithful};
pub use listing::list;
pub use name_text::{NameText, write_name};
pub use put::Put;
pub use reading::read_name;
pub use settling::{drop_file, settle};
pub use stop_law::{
    crashes_leave_settled_replicas, drops_carry_on, files_tell_one_longer_log, growth_keeps,
    merged_files_carry_on, next_files_carry_on, replicas_begin_settled, settled_replicas_carry_on,
    synced_names_settle,
};
