//! Why the pages of a plan's files can't be given.

ghost use Rattle.std.specs.Prelude.{◌≡◌};
ghost use Rattle.page_cursors.specs.declared.fault.CursorsFault.TheVariants.{Memory as want};

use crash_disk::DiskFault;
use replica_store::{Damage, FileName};
use std::alloc::{AllocError, AllocFailed};
use thiserror::Error;

/// Why the pages of a plan's files can't be given.
#[derive(Clone, Copy, Debug, PartialEq, Eq, Error)]
pub enum CursorsFault {
    /// The first file of the plan that is damaged, and what is wrong with it.
    #[error("{1}")]
    Damaged(FileName, Damage),
    /// No file of the plan is damaged; the first that doesn't fit what those before it make, and the first
    /// page that is missing there.
    #[error("page {1} is missing")]
    PageMissing(FileName, u32),
    /// The replica's disk failed. Its count of faults has risen, or stands at its last value.
    #[error("the replica's disk failed")]
    Store(DiskFault),
    /// There was no memory.
    #[error("out of memory")]
    Memory,
}

impl From<AllocError> for CursorsFault {
    ghost from_gives = { λ _ fault. fault ≡ want };

    fn from(_: AllocError) -> CursorsFault {
        CursorsFault::Memory
    }
}

impl<T: Drop> From<AllocFailed<T>> for CursorsFault {
    ghost from_gives = { λ _ fault. fault ≡ want };

    fn from(_: AllocFailed<T>) -> CursorsFault {
        CursorsFault::Memory
    }
}
