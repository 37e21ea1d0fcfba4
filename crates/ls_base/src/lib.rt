//! The values that every other crate of the project speaks of: page sizes, transaction numbers, places
//! in the log, pages, and the definitions of states, changes, histories and sync logs in `specs/`.
//!
//! Each type keeps its own rule (a `PageSize` is a power of two from 512 to 65536, a `Txid` is never
//! 0), so the layers above need no test of it. What takes memory answers `Memory` for want of it, and
//! the value is then as it was. Nothing here fails in another way, and nothing reaches outside.
//!
//! Stands on the standard library alone.
#![tactic(auto)]

mod bytes;
mod change_pages;
mod entry;
mod limits;
mod line;
mod mark;
mod memory;
mod page;
mod page_list;
mod page_size;
mod pages;
mod place;
mod steps;
#[cfg(test)]
mod tests;
mod txid;

pub use bytes::{Bytes, FileBytes};
pub use change_pages::ChangePages;
pub use entry::Entry;
pub use limits::{DATABASE_LIMIT, LOG_LIMIT};
pub use line::Line;
pub use mark::Mark;
pub use memory::Memory;
pub use page::Page;
pub use page_list::PageList;
pub use page_size::PageSize;
pub use pages::Pages;
pub use place::Place;
pub use steps::Steps;
pub use txid::Txid;
