//! Why a run isn't merged.

ghost use Rattle.std.specs.Prelude.{◌≡◌};
ghost use Rattle.compact_levels.specs.MergeCause.{fault_of};
ghost use Rattle.compact_levels.specs.declared.merge_fault.MergeFault.TheVariants.{Store as failed, Memory as want};

use crash_disk::DiskFault;
use page_cursors::CursorsFault;
use replica_store::{Damage, FileName};
use std::alloc::{AllocError, AllocFailed};
use thiserror::Error;

/// Why a run isn't merged.
#[derive(Clone, Copy, Debug, PartialEq, Eq, Error)]
pub enum MergeFault {
    /// The first file of the run that is damaged, and what is wrong with it.
    #[error("{1}")]
    Damaged(FileName, Damage),
    /// No file of the run is damaged, and it begins with transaction 1; the first file that doesn't fit what those
    /// before it make, and the first page that is missing there.
    #[error("page {1} is missing")]
    PageMissing(FileName, u32),
    /// The replica's disk failed. Its count of faults has risen, or stands at its last value.
    #[error("the replica's disk failed")]
    Store(DiskFault),
    /// There was no memory.
    #[error("out of memory")]
    Memory,
}

impl From<CursorsFault> for MergeFault {
    ghost from_gives = { λ found fault. fault ≡ fault_of found };

    fn from(found: CursorsFault) -> MergeFault {
        match found {
            CursorsFault::Damaged(name, damage) => MergeFault::Damaged(name, damage),
            CursorsFault::PageMissing(name, number) => MergeFault::PageMissing(name, number),
            CursorsFault::Store(fault) => MergeFault::Store(fault),
            CursorsFault::Memory => MergeFault::Memory,
        }
    }
}

impl From<DiskFault> for MergeFault {
    ghost from_gives = { λ cause fault. fault ≡ failed cause };

    fn from(cause: DiskFault) -> MergeFault {
        MergeFault::Store(cause)
    }
}

impl From<ls_base::Memory> for MergeFault {
    ghost from_gives = { λ _ fault. fault ≡ want };

    fn from(_: ls_base::Memory) -> MergeFault {
        MergeFault::Memory
    }
}

impl From<AllocError> for MergeFault {
    ghost from_gives = { λ _ fault. fault ≡ want };

    fn from(_: AllocError) -> MergeFault {
        MergeFault::Memory
    }
}

impl<T: Drop> From<AllocFailed<T>> for MergeFault {
    ghost from_gives = { λ _ fault. fault ≡ want };

    fn from(_: AllocFailed<T>) -> MergeFault {
        MergeFault::Memory
    }
}
