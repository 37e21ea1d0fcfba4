//! Pages of a database as of a mark of its log, read while its writer moves, and the place of a database
//! whose log has no mark.
//!
//! A `PageMap` says where in the log the pages stand. `page_at` gives the page that it names, else the
//! database file's, and zeros at the lock page: under the gate, where the map has the offsets of the
//! frames up to a mark, that is the view's page at that mark. `rest_place` sums the pages of the database
//! file. Neither takes memory; a fault of the live database, and a log that ends before the page, are the
//! only refusals. The laws are the clauses of `read_laws`.
//!
//! Stands on `ls_base`, `ls_sums`, `wal_frames` and `live_gate`.
#![tactic(auto)]

#[cfg(test)]
mod failing_live;
mod fault;
mod law;
mod log_page;
mod page;
mod page_map;
mod rest;
#[cfg(test)]
mod tests;

pub use fault::PageFault;
pub use law::read_laws;
pub use page::page_at;
pub use page_map::PageMap;
pub use rest::rest_place;
