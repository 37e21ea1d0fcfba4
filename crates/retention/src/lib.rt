//! Retention that breaks no chain: which files of a replica may go, and which transactions go with them.
//!
//! A file is old if its moment is before the cut. The names are decided on one after the other, in list order. An
//! old one goes exactly where each protected transaction stays retained without it: each retained one with a
//! moment that isn't before the cut, and the newest retained one. It takes about n log n steps for n names.
//!
//! The ends of the retained transactions cut the way from nothing to the newest one into stretches. A part of the
//! names keeps every protected transaction exactly where each stretch is spanned by a name of that part, one that
//! leads over it and not past the next protected transaction. So an old name stays where a stretch falls to it that
//! no kept one before it spans: the last that spans the stretch, where no young one does.
//!
//! `prune` removes the names in their order, and brings the names that are left to the disk. After a fault the first
//! ones of them are gone. Whatever a crash leaves meanwhile, each protected transaction is retained in it.
//!
//! Stands on `ls_base`, `crash_disk` and `replica_store`, whose `specs/Chain.antt` says what a chain is. What takes
//! memory answers `Memory` for want of it.
#![tactic(auto)]

mod claim;
mod decision;
mod dropping;
mod kept;
mod outcome;
mod painting;
#[cfg(test)]
mod prune_tests;
mod pruning;
mod retained;
mod stretch;
#[cfg(test)]
mod tests;
mod young;

pub use dropping::drops;
pub use outcome::Drops;
pub use pruning::prune;
