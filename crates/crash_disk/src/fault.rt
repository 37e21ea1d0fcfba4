//! Why a call of a disk or of an output failed.

ghost use Rattle.std.specs.Prelude.{◌≡◌};
ghost use Rattle.crash_disk.specs.declared.fault.NamesFault.TheVariants.{Memory, Disk};

use std::alloc::{AllocError, AllocFailed};
use thiserror::Error;

/// The disk failed. Its count of faults has risen, or stands at its last value.
#[derive(Clone, Copy, Debug, PartialEq, Eq, Error)]
#[error("the disk failed")]
pub struct DiskFault;

/// Why a call that takes memory failed.
#[derive(Clone, Copy, Debug, PartialEq, Eq, Error)]
pub enum NamesFault {
    /// The disk failed. Its count of faults has risen, or stands at its last value.
    #[error("the disk failed")]
    Disk(DiskFault),
    /// There was no memory for the answer.
    #[error("out of memory")]
    Memory,
}

impl From<DiskFault> for NamesFault {
    ghost from_gives = { λ fault e. e ≡ Disk fault };

    fn from(fault: DiskFault) -> NamesFault {
        NamesFault::Disk(fault)
    }
}

impl From<AllocError> for NamesFault {
    ghost from_gives = { λ _ e. e ≡ Memory };

    fn from(_: AllocError) -> NamesFault {
        NamesFault::Memory
    }
}

impl<T: Drop> From<AllocFailed<T>> for NamesFault {
    ghost from_gives = { λ _ e. e ≡ Memory };

    fn from(_: AllocFailed<T>) -> NamesFault {
        NamesFault::Memory
    }
}

/// The output failed. Its count of faults has risen, or stands at its last value.
#[derive(Clone, Copy, Debug, PartialEq, Eq, Error)]
#[error("the output failed")]
pub struct OutFault;
