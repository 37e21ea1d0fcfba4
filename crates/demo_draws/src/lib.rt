//! The made-up database of the command `demo`, as far as it is numbers.
//!
//! A generator of numbers of 64 bits, which starts from a seed, gives numbers below a bound, whole pages and whole
//! commits. The same seed gives the same pages and commits on each run; `specs/` says which. A commit takes memory
//! for its pages alone, and answers `Memory` for want of it; the generator is then as it was. Nothing here fails in
//! another way, and nothing reaches outside.
//!
//! Stands on `ls_base`.
#![tactic(auto)]

mod commit;
mod draws;
mod page;
#[cfg(test)]
mod tests;

pub use commit::{DrawnCommit, FIRST_COMMIT_PAGES};
pub use draws::Draws;
pub use page::PAGE_BYTES;
