//! What a sync answers.

ghost use Rattle.std.specs.Prelude.{◌≡◌};
ghost use Rattle.replica_sync.specs.declared.answer.SyncFault.TheVariants.{Follow, Store, Memory as want};

use crash_disk::DiskFault;
use std::alloc::AllocError;
use thiserror::Error;
use wal_follow::FollowFault;

/// Why a sync was refused.
#[derive(Clone, Copy, Debug, PartialEq, Eq, Error)]
pub enum SyncFault {
    /// The live database can't be followed, or failed.
    #[error(transparent)]
    Follow(FollowFault),
    /// A file is to be stored, and no transaction number is left for it.
    #[error("no transaction number is left")]
    TxidSpent,
    /// The replica's disk failed. Its count of faults has risen, or stands at its last value.
    #[error("the replica's disk failed")]
    Store(DiskFault),
    /// There was no memory.
    #[error("out of memory")]
    Memory,
}

impl From<FollowFault> for SyncFault {
    ghost from_gives = { λ fault e. e ≡ Follow fault };

    fn from(fault: FollowFault) -> SyncFault {
        SyncFault::Follow(fault)
    }
}

impl From<DiskFault> for SyncFault {
    ghost from_gives = { λ fault e. e ≡ Store fault };

    fn from(fault: DiskFault) -> SyncFault {
        SyncFault::Store(fault)
    }
}

impl From<AllocError> for SyncFault {
    ghost from_gives = { λ _ e. e ≡ want };

    fn from(_: AllocError) -> SyncFault {
        SyncFault::Memory
    }
}
