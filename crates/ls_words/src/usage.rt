//! What is wrong with words.

use thiserror::Error;

/// The first fault of the words, and the word that holds it.
#[derive(Clone, Copy, Debug, PartialEq, Eq, Error)]
#[error("word {word}: {why}")]
pub struct Usage {
    /// The index of the word that holds the fault, counted from 0: for a value in a word of its own that
    /// word, for `-f=x` that one word, and the number of words where something is missing at their end.
    pub word: u32,
    /// What is wrong with it.
    pub why: UsageWhy,
}

/// What is wrong with a word.
#[derive(Clone, Copy, Debug, PartialEq, Eq, Error)]
pub enum UsageWhy {
    /// There is no word.
    #[error("no command")]
    NoCommand,
    /// The first word is no command.
    #[error("unknown command")]
    UnknownCommand,
    /// Behind its dashes a flag has nothing, or a dash, or `=`.
    #[error("bad flag syntax")]
    BadSyntax,
    /// The command has no such flag.
    #[error("unknown flag")]
    UnknownFlag,
    /// A flag that takes a value is the last word.
    #[error("flag needs a value")]
    NeedsValue,
    /// The value of a truth flag is none of Go's twelve spellings.
    #[error("bad truth value")]
    BadTruth,
    /// The value isn't a number of the flag's digits and range.
    #[error("bad number")]
    BadNumber,
    /// The value isn't 1 to 16 hexadecimal digits that write a number above 0.
    #[error("bad txid")]
    BadTxid,
    /// The value isn't a date that the calendar has, with a time of day and an offset.
    #[error("bad timestamp")]
    BadMoment,
    /// The value isn't 1 to 9 digits and `h`, `m`, `s` or `ms`.
    #[error("bad duration")]
    BadDuration,
    /// The word is empty, or its path ends in no name of a file where one is wanted.
    #[error("bad path")]
    BadPath,
    /// The replica is of a scheme other than `file`.
    #[error("remote store")]
    RemoteStore,
    /// Fewer plain words than the command takes.
    #[error("missing word")]
    MissingWord,
    /// More plain words than the command takes.
    #[error("extra word")]
    ExtraWord,
    /// A restore without `-o`.
    #[error("-o is missing")]
    NeedsOutput,
    /// A restore with both `-txid` and `-timestamp`.
    #[error("-txid and -timestamp exclude each other")]
    BothGiven,
}

/// Why there is no command.
#[derive(Clone, Copy, Debug, PartialEq, Eq, Error)]
pub enum WordsFault {
    /// The words aren't of the grammar: their first fault.
    #[error("{0}")]
    Usage(Usage),
    /// Want of memory for a text of the command.
    #[error("out of memory")]
    Memory,
}
