//! What was asked of the live database.

ghost use Rattle.std.specs.Prelude.{◌≡◌};
ghost use Rattle.sim_writer.specs.Questions.{nothing_asked, asked_of};

use ls_base::Bytes;
use std::alloc::Global;

/// The first bytes of a database file, no more than 100.
#[derive(Debug, Drop)]
pub(crate) struct Head {
    pub(crate) bytes: [u8; 100],
    pub(crate) count: usize,
}

/// What was asked, and answered where that may differ now.
#[derive(Debug, Drop)]
pub(crate) struct Questions {
    pub(crate) aimed: u64,
    pub(crate) answered: Bytes,
    pub(crate) gave_none: bool,
    pub(crate) head: Option<Head>,
    pub(crate) db_size: Option<u64>,
    pub(crate) wal_size: Option<u64>,
    pub(crate) taken: u64,
    pub(crate) passes: u64,
    pub(crate) passed: u64,
}

impl Questions {
    /// Nothing was asked. Takes no memory.
    pub(crate) fn new(alloc: Global) -> Questions
        ensures { asked_of result ≡ nothing_asked }
    {
        Questions {
            aimed: 0,
            answered: Bytes::new(alloc),
            gave_none: false,
            head: None,
            db_size: None,
            wal_size: None,
            taken: 0,
            passes: 0,
            passed: 0,
        }
    }
}
