//! Why frames weren't copied, or a log wasn't begun anew.

ghost use Rattle.std.specs.Prelude.{◌≡◌};
ghost use Rattle.checkpointer.specs.declared.fault.BackfillFault.TheVariants as of_backfill;
ghost use Rattle.checkpointer.specs.declared.fault.RestartFault.TheVariants as of_restart;

use crash_disk::DiskFault;
use ls_base::{Mark, Memory};
use std::alloc::AllocError;
use thiserror::Error;

/// Why the frames of a log weren't copied into the database file.
#[derive(Clone, Copy, Debug, PartialEq, Eq, Error)]
pub enum BackfillFault {
    /// The disk failed. Its count of faults has risen, or stands at its last value.
    #[error("the disk failed")]
    Disk(DiskFault),
    /// The offset isn't the end of a commit of the log.
    #[error("no commit of the log ends there")]
    NotMark,
    /// There was no memory for the copy. Nothing was written.
    #[error("out of memory")]
    Memory,
}

impl From<DiskFault> for BackfillFault {
    ghost from_gives = { λ fault e. e ≡ of_backfill.Disk fault };

    fn from(fault: DiskFault) -> BackfillFault {
        BackfillFault::Disk(fault)
    }
}

impl From<Memory> for BackfillFault {
    ghost from_gives = { λ _ e. e ≡ of_backfill.Memory };

    fn from(_: Memory) -> BackfillFault {
        BackfillFault::Memory
    }
}

impl From<AllocError> for BackfillFault {
    ghost from_gives = { λ _ e. e ≡ of_backfill.Memory };

    fn from(_: AllocError) -> BackfillFault {
        BackfillFault::Memory
    }
}

/// Why a log wasn't cut to nothing.
#[derive(Clone, Copy, Debug, PartialEq, Eq, Error)]
pub enum RestartFault {
    /// The disk failed. Its count of faults has risen, or stands at its last value.
    #[error("the disk failed")]
    Disk(DiskFault),
    /// The log has commits behind what was copied; this is its last one. Nothing was changed.
    #[error("the log has grown")]
    Grown(Mark),
}

impl From<DiskFault> for RestartFault {
    ghost from_gives = { λ fault e. e ≡ of_restart.Disk fault };

    fn from(fault: DiskFault) -> RestartFault {
        RestartFault::Disk(fault)
    }
}
