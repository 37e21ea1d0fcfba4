//! What a restore answers.

ghost use Rattle.std.specs.Prelude.{◌≡◌};
ghost use Rattle.restore_apply.specs.Writing.{fault_of};
ghost use Rattle.restore_apply.specs.declared.restored.RestoreFault.TheVariants.{Target as broken, Memory as want};

use crash_disk::DiskFault;
use ls_base::Txid;
use page_cursors::CursorsFault;
use replica_store::{Damage, FileName};
use std::alloc::{AllocError, AllocFailed};
use thiserror::Error;

/// A restore that was done.
#[derive(Clone, Copy, Debug, PartialEq, Eq)]
pub struct Restored {
    /// The transaction as of which the database was restored.
    pub txid: Txid,
    /// How many pages it has.
    pub pages: u32,
}

/// Why nothing was restored.
#[derive(Clone, Copy, Debug, PartialEq, Eq, Error)]
pub enum RestoreFault {
    /// The first file of the plan that is damaged, and what is wrong with it.
    #[error("{1}")]
    Damaged(FileName, Damage),
    /// No file of the plan is damaged; the first that doesn't fit what those before it make, and the first
    /// page that is missing there.
    #[error("page {1} is missing")]
    PageMissing(FileName, u32),
    /// The replica's disk failed. Its count of faults has risen, or stands at its last value.
    #[error("the replica's disk failed")]
    Store(DiskFault),
    /// The output's disk failed. Its count of faults has risen, or stands at its last value. The output is
    /// absent or whole.
    #[error("the output's disk failed")]
    Target(DiskFault),
    /// There was no memory.
    #[error("out of memory")]
    Memory,
}

impl From<CursorsFault> for RestoreFault {
    ghost from_gives = { λ found fault. fault ≡ fault_of found };

    fn from(found: CursorsFault) -> RestoreFault {
        match found {
            CursorsFault::Damaged(name, damage) => RestoreFault::Damaged(name, damage),
            CursorsFault::PageMissing(name, number) => RestoreFault::PageMissing(name, number),
            CursorsFault::Store(fault) => RestoreFault::Store(fault),
            CursorsFault::Memory => RestoreFault::Memory,
        }
    }
}

/// A fault of the output's disk: the replica's comes from the cursors.
impl From<DiskFault> for RestoreFault {
    ghost from_gives = { λ found fault. fault ≡ broken found };

    fn from(found: DiskFault) -> RestoreFault {
        RestoreFault::Target(found)
    }
}

impl From<AllocError> for RestoreFault {
    ghost from_gives = { λ _ fault. fault ≡ want };

    fn from(_: AllocError) -> RestoreFault {
        RestoreFault::Memory
    }
}

impl<T: Drop> From<AllocFailed<T>> for RestoreFault {
    ghost from_gives = { λ _ fault. fault ≡ want };

    fn from(_: AllocFailed<T>) -> RestoreFault {
        RestoreFault::Memory
    }
}
