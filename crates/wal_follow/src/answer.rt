//! What the follower found.

use ls_base::{PageList, PageSize, Place};

/// Which pages of the found state are to be stored.
#[derive(Debug, Drop)]
pub enum Wanted {
    /// All but the lock page.
    All,
    /// Those of the piece since the follower's place.
    Listed(PageList),
}

/// The state of the database that was found.
#[derive(Debug, Drop)]
pub struct Found {
    /// The size of its pages in bytes.
    pub size: PageSize,
    /// Where it stands.
    pub place: Place,
    /// How many pages it has.
    pub commit: u32,
    /// Which of them are to be stored.
    pub wanted: Wanted,
}

/// What became of the database since the follower's place.
#[derive(Debug, Drop)]
pub enum Next {
    /// The state at the place is still the last one.
    Same,
    /// A piece leads from the place to a later state.
    Piece(Found),
    /// The log doesn't lead on from the place. The found state is to be stored whole.
    Lost(Found),
}
