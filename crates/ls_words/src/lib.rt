//! The words of a command line, read whole.
//!
//! `read_words` gives the command that the words behind the program's name ask for, or the first fault of
//! theirs with the index of the word that holds it. The grammar is that of Go's package `flag`, with this
//! project's commands, flags and values; `specs/` states it by cases on the list of words, and `read_words`
//! answers by it, or for want of memory. It takes memory only for the texts that a command keeps.
//!
//! Stands on `ls_base`, and on `jiff_core` for the calendar.
#![tactic(auto)]

mod clock;
mod command;
mod digit;
mod fault;
mod flag;
mod flag_word;
mod given;
mod moment;
mod path;
mod plain;
mod reading;
mod settings;
#[cfg(test)]
mod tests;
mod text;
mod usage;
mod value;
mod verb;
mod words;

pub use command::{Command, Target};
pub use reading::read_words;
pub use text::Text;
pub use usage::{Usage, UsageWhy, WordsFault};
pub use words::Words;
