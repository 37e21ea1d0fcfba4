//! The upkeep of a replica, the last part of a round: what is due is merged, and what is too old is dropped.
//!
//! First the levels 1, 2, 3 and 9 have their turns, each over the names as they are then: where a run is due, it is
//! merged, and the name of the merged file joins the names. Then the files that are older than is wanted go, as far as
//! no transaction is lost that is to be kept.
//!
//! To the layer above it promises: behind Ok the names with their moments are exactly those (`IsMaintained`), and the
//! answer counts what was added, what went and what was lost with it. At every answer each file has its bytes, or was
//! older than the cut and is gone, and each new one is a merge. A replica that told the truth about a log goes on
//! telling it about the same log, as read and whatever a crash leaves: young transactions that were retained stay so,
//! and the newest one (`KeepsFaith`). Each refusal tells its cause.
//!
//! Stands on `compact_levels`, which merges, on `retention`, which drops, and on `replica_store`.
#![tactic(auto)]

mod adding;
mod answer;
mod level;
mod maintaining;

pub use adding::add_name;
pub use answer::{Upkeep, UpkeepStop};
pub use maintaining::maintain;
