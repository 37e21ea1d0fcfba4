//! Plans of a restore: which files lead to a transaction, which transactions are retained, and the last one
//! at or before a moment.
//!
//! A plan is the chosen chain to the transaction, and is refused exactly where no chain leads there. The names
//! stand in list order. Only `plan` takes memory, for the chain that it answers.
//!
//! Stands on `ls_base` and `replica_store`, whose `specs/Chain.antt` says what a chain is.
#![tactic(auto)]

mod beginning;
mod chain;
mod choice;
mod listing;
mod moment;
mod reach;
mod rising;
mod run;
mod sweep;
#[cfg(test)]
mod tests;
mod walk;

pub use beginning::first_of_plan;
pub use chain::{PlanFault, plan};
pub use moment::last_at;
pub use reach::retained;
