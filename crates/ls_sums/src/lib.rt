//! The sums that the files of the project carry: the checksum of a log, and the 64-bit cyclic redundancy
//! check of files and pages.
//!
//! `WalSum::over` and `Crc64::over` give the sums of the whole input however it is cut into pieces. Their
//! bodies are fast: eight bytes and more at a time, without tables. `specs/` has the plain definitions.
//! Nothing here takes memory or fails, and nothing reaches outside.
#![tactic(auto)]

mod crc64;
mod cut;
mod order;
mod page;
#[cfg(test)]
mod plain;
#[cfg(test)]
mod tests;
mod wal_sum;
mod window;
mod word;

pub use crc64::Crc64;
pub use cut::any_cut;
pub use order::Order;
pub use page::page_sum;
pub use wal_sum::WalSum;
