//! Why a call on the replica failed.

ghost use Rattle.std.specs.Prelude.{◌≡◌};
ghost use Rattle.replica_store.specs.StoreError.{error_of};
ghost use Rattle.replica_store.specs.declared.error.StoreError.TheVariants.{Store, Memory as want};

use crate::file_name::FileName;
use crash_disk::{DiskFault, NamesFault};
use ltx_format::LtxFault;
use std::alloc::{AllocError, AllocFailed};
use thiserror::Error;

/// What is wrong with a file of a replica.
#[derive(Clone, Copy, Debug, PartialEq, Eq, Error)]
pub enum Damage {
    /// The file's bytes are no file of the format, for this reason.
    #[error(transparent)]
    File(LtxFault),
    /// The file is one of other transactions than its name says.
    #[error("name differs")]
    NameDiffers,
    /// The file has another page size than the first that was read.
    #[error("page size differs")]
    SizeDiffers,
}

/// Why a call on the replica failed.
#[derive(Clone, Copy, Debug, PartialEq, Eq, Error)]
pub enum StoreError {
    /// The replica's disk failed. Its count of faults has risen, or stands at its last value.
    #[error("the replica's disk failed")]
    Store(DiskFault),
    /// The file of this name is damaged.
    #[error("{1}")]
    Damaged(FileName, Damage),
    /// There was no memory.
    #[error("out of memory")]
    Memory,
}

impl From<DiskFault> for StoreError {
    ghost from_gives = { λ fault e. e ≡ Store fault };

    fn from(fault: DiskFault) -> StoreError {
        StoreError::Store(fault)
    }
}

impl From<NamesFault> for StoreError {
    ghost from_gives = { λ fault e. e ≡ error_of fault };

    fn from(fault: NamesFault) -> StoreError {
        match fault {
            NamesFault::Disk(fault) => StoreError::Store(fault),
            NamesFault::Memory => StoreError::Memory,
        }
    }
}

impl From<ls_base::Memory> for StoreError {
    ghost from_gives = { λ _ e. e ≡ want };

    fn from(_: ls_base::Memory) -> StoreError {
        StoreError::Memory
    }
}

impl From<AllocError> for StoreError {
    ghost from_gives = { λ _ e. e ≡ want };

    fn from(_: AllocError) -> StoreError {
        StoreError::Memory
    }
}

impl<T: Drop> From<AllocFailed<T>> for StoreError {
    ghost from_gives = { λ _ e. e ≡ want };

    fn from(_: AllocFailed<T>) -> StoreError {
        StoreError::Memory
    }
}
