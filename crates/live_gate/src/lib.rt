//! A live database: a database file and its log, which a writer that keeps to the gate may change before
//! each call of the reader.
//!
//! `specs/` says what such a database may be (`Legal`), what its writer may do (`Step`, and one by one
//! `Moves` and `Stops`), and when bytes or states pass for others by chance (`Coincidence`). The trait
//! `Live` has the calls of a reader, each with what it does to what is told (`LiveCalls`). `StillLive`
//! holds two lists of bytes and meets the trait. The laws are the clauses of the functions in `law`.
//!
//! Only `attach`, `pass` and `StillLive::new` take memory. Each other failure is a fault of the live
//! database, which it counts. Stands on `ls_base`, `ls_sums`, `wal_frames` and `db_page`.
#![tactic(auto)]

mod answer;
mod fault;
mod law;
mod live;
mod piece;
mod still_live;
#[cfg(test)]
mod tests;

pub use answer::{Attached, Pass};
pub use fault::{LiveFault, PassFault};
pub use law::{legal_laws, move_laws, step_laws, stop_laws};
pub use live::Live;
pub use still_live::StillLive;
