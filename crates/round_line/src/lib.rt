//! What a round of a replication did, and the line that tells it.
//!
//! It promises that the line is exactly the text that `specs/RoundText.antt` says, byte by byte: the round's number,
//! whether nothing, a piece or the whole state was stored and under which name, and how much was passed, merged,
//! dropped and lost. The line is made on the stack; no memory is taken.
//!
//! Stands on `ls_base`, on `replica_store` for the name of a file, and on `itoa` and `arrayvec` for the text.
#![tactic(auto)]

mod line;
mod round;
#[cfg(test)]
mod tests;

pub use line::{ROUND_LINE_BYTES, round_line};
pub use round::{Round, Synced};
