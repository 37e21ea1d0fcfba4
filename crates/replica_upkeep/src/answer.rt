//! What the upkeep of a replica answers.

ghost use Rattle.std.specs.Prelude.{◌≡◌};
ghost use Rattle.replica_upkeep.specs.Answers.{stop_of, stop_at};
ghost use Rattle.replica_upkeep.specs.declared.answer.UpkeepStop.TheVariants.{Store as failed, Memory as want};

use compact_levels::MergeFault;
use crash_disk::DiskFault;
use replica_store::{Damage, FileName, StoreError};
use std::alloc::AllocError;
use thiserror::Error;

/// What the upkeep of a round did.
#[derive(Clone, Copy, Debug, PartialEq, Eq)]
pub struct Upkeep {
    /// How many merged files were added.
    pub merged: u32,
    /// How many files went.
    pub dropped: u64,
    /// How many transactions aren't retained any more.
    pub lost: u64,
}

/// Why the upkeep was refused.
#[derive(Clone, Copy, Debug, PartialEq, Eq, Error)]
pub enum UpkeepStop {
    /// The first file of a run that is damaged, and what is wrong with it.
    #[error("{1}")]
    Damaged(FileName, Damage),
    /// No file of a run is damaged, and it begins with transaction 1; the first file that doesn't fit what those
    /// before it make, and the first page that is missing there.
    #[error("page {1} is missing")]
    PageMissing(FileName, u32),
    /// The replica's disk failed. Its count of faults has risen, or stands at its last value.
    #[error("the replica's disk failed")]
    Store(DiskFault),
    /// There was no memory.
    #[error("out of memory")]
    Memory,
}

impl From<MergeFault> for UpkeepStop {
    ghost from_gives = { λ fault stop. stop ≡ stop_of fault };

    fn from(fault: MergeFault) -> UpkeepStop {
        match fault {
            MergeFault::Damaged(name, damage) => UpkeepStop::Damaged(name, damage),
            MergeFault::PageMissing(name, number) => UpkeepStop::PageMissing(name, number),
            MergeFault::Store(fault) => UpkeepStop::Store(fault),
            MergeFault::Memory => UpkeepStop::Memory,
        }
    }
}

impl From<StoreError> for UpkeepStop {
    ghost from_gives = { λ error stop. stop ≡ stop_at error };

    fn from(error: StoreError) -> UpkeepStop {
        match error {
            StoreError::Damaged(name, damage) => UpkeepStop::Damaged(name, damage),
            StoreError::Store(fault) => UpkeepStop::Store(fault),
            StoreError::Memory => UpkeepStop::Memory,
        }
    }
}

impl From<DiskFault> for UpkeepStop {
    ghost from_gives = { λ cause stop. stop ≡ failed cause };

    fn from(cause: DiskFault) -> UpkeepStop {
        UpkeepStop::Store(cause)
    }
}

impl From<ls_base::Memory> for UpkeepStop {
    ghost from_gives = { λ _ stop. stop ≡ want };

    fn from(_: ls_base::Memory) -> UpkeepStop {
        UpkeepStop::Memory
    }
}

impl From<AllocError> for UpkeepStop {
    ghost from_gives = { λ _ stop. stop ≡ want };

    fn from(_: AllocError) -> UpkeepStop {
        UpkeepStop::Memory
    }
}
