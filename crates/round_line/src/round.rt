//! What a round did.

ghost use Rattle.std.specs.Prelude.{◌≡◌, option_copied};
ghost use Rattle.round_line.specs.RoundText.{name_in, word_of};

use replica_store::FileName;

/// What a sync stored.
#[derive(Clone, Copy, Debug, PartialEq, Eq)]
pub enum Synced {
    /// Nothing: the newest file has the last state.
    Same,
    /// The piece since the newest file.
    Piece(FileName),
    /// The whole state.
    Whole(FileName),
}

impl Synced {
    /// The word for it in a line.
    pub fn word(&self) -> &'static str
        ensures { result.now ≡ word_of self.now }
    {
        match self {
            Synced::Same => "same",
            Synced::Piece(_) => "piece",
            Synced::Whole(_) => "whole",
        }
    }

    /// The name of the stored file. `None` exactly where nothing was stored.
    pub fn name(&self) -> Option<&FileName>
        ensures { option_copied result ≡ name_in self.now }
    {
        match self {
            Synced::Same => None,
            Synced::Piece(name) | Synced::Whole(name) => Some(name),
        }
    }
}

/// What a round did.
#[derive(Clone, Copy, Debug, PartialEq, Eq)]
pub struct Round {
    /// What its sync stored.
    pub sync: Synced,
    /// Whether the log was emptied into the database file.
    pub passed: bool,
    /// How many files were merged into new ones.
    pub merged: u32,
    /// How many files were dropped.
    pub dropped: u64,
    /// How many transactions can't be restored any more.
    pub lost: u64,
}
