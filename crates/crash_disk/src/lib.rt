//! The trait of a disk whose crashes are part of its contract, the trait of an output, and one of each in
//! memory.
//!
//! A disk is a finite map from names to bytes, in one folder. Where it tells its content, a contract sees
//! the record of the changes that its calls made, newest first, and everything else is defined over that
//! record (`specs/`). A call fails only where the disk's count of faults rose, and each says what stands
//! afterwards. What a real disk does is beyond any contract: one that doesn't tell its content is held to
//! its counts and to nothing else.
//!
//! Stands on `ls_base`.
#![tactic(auto)]

mod call_plan;
mod disk;
mod event;
mod fault;
mod file_bytes;
mod file_table;
mod folder;
mod law;
mod mem_disk;
mod mem_out;
mod name;
mod out;
mod remnant;
mod replay;
mod replayed;

pub use disk::Disk;
pub use event::Event;
pub use fault::{DiskFault, NamesFault, OutFault};
pub use law::{
    crashed_disk_has_one_image, put_is_crash_safe, read_files_are_an_image,
    synced_disk_has_one_image,
};
pub use mem_disk::MemDisk;
pub use mem_out::MemOut;
pub use name::{Name, NameList};
pub use out::Out;
