//! The header of an LTX file.

ghost use Rattle.std.specs.Prelude.{◌≡◌};
ghost use Rattle.ltx_format.specs.FirstFault as spec;

use ls_base::{PageSize, Place, Txid};

/// What the header of a file says (`specs/LtxFormat.antt` has its bytes).
#[derive(Clone, Copy, Debug, PartialEq, Eq)]
pub struct LtxHeader {
    /// The size of each page.
    pub size: PageSize,
    /// How many pages the database has afterwards, at least 1.
    pub commit: u32,
    /// The first transaction of the file.
    pub min: Txid,
    /// The last transaction of the file.
    pub max: Txid,
    /// The moment of the last transaction, in milliseconds since 1970-01-01T00:00:00Z.
    pub moment: u64,
    /// The place of the state after the last transaction.
    pub place: Place,
    /// Whether the file has an index: the numbers of its pages, before the trailer.
    pub index: bool,
}

impl LtxHeader {
    /// How many pages of the database a file can hold: all but the lock page.
    pub fn stored_pages(&self) -> u32
        ensures { result ≡ spec.stored_pages self.now.size self.now.commit }
    {
        if self.size.lock_page() <= self.commit {
            return self.commit - 1;
        }
        self.commit
    }
}
