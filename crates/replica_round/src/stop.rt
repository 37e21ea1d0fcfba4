//! Why a round was refused.

ghost use Rattle.std.specs.Prelude.{◌≡◌};
ghost use Rattle.replica_round.specs.Stop.{stop_of_files, stop_of_sync, stop_of_hold, stop_of_pass, stop_of_upkeep};

use crash_disk::DiskFault;
use live_gate::{LiveFault, PassFault};
use replica_store::{Damage, FileName, StoreError};
use replica_sync::SyncFault;
use replica_upkeep::UpkeepStop;
use thiserror::Error;
use wal_follow::FollowFault;

/// Why a round was refused.
#[derive(Clone, Copy, Debug, PartialEq, Eq, Error)]
pub enum RoundStop {
    /// The live database can't be followed, or failed. Its count of faults has then risen, or stands at its last
    /// value.
    #[error(transparent)]
    Follow(FollowFault),
    /// A file is to be stored, and no transaction number is left for it.
    #[error("no transaction number is left")]
    TxidSpent,
    /// The replica's disk failed. Its count of faults has risen, or stands at its last value.
    #[error("the replica's disk failed")]
    Store(DiskFault),
    /// The file of this name is damaged: the first in list order whose header is, or the first of a run that was to
    /// be merged.
    #[error("{1}")]
    Damaged(FileName, Damage),
    /// The first file of a run that doesn't fit what those before it make, and the first page that is missing there.
    #[error("page {1} is missing")]
    PageMissing(FileName, u32),
    /// There was no memory.
    #[error("out of memory")]
    Memory,
}

impl From<StoreError> for RoundStop {
    ghost from_gives = { λ error e. e ≡ stop_of_files error };

    fn from(error: StoreError) -> RoundStop {
        match error {
            StoreError::Store(fault) => RoundStop::Store(fault),
            StoreError::Damaged(name, damage) => RoundStop::Damaged(name, damage),
            StoreError::Memory => RoundStop::Memory,
        }
    }
}

impl From<SyncFault> for RoundStop {
    ghost from_gives = { λ fault e. e ≡ stop_of_sync fault };

    fn from(fault: SyncFault) -> RoundStop {
        match fault {
            SyncFault::Follow(fault) => RoundStop::Follow(fault),
            SyncFault::TxidSpent => RoundStop::TxidSpent,
            SyncFault::Store(fault) => RoundStop::Store(fault),
            SyncFault::Memory => RoundStop::Memory,
        }
    }
}

impl From<LiveFault> for RoundStop {
    ghost from_gives = { λ fault e. e ≡ stop_of_hold fault };

    fn from(fault: LiveFault) -> RoundStop {
        RoundStop::Follow(FollowFault::Live(fault))
    }
}

impl From<PassFault> for RoundStop {
    ghost from_gives = { λ fault e. e ≡ stop_of_pass fault };

    fn from(fault: PassFault) -> RoundStop {
        match fault {
            PassFault::Live(fault) => RoundStop::Follow(FollowFault::Live(fault)),
            PassFault::Memory => RoundStop::Memory,
        }
    }
}

impl From<UpkeepStop> for RoundStop {
    ghost from_gives = { λ stop e. e ≡ stop_of_upkeep stop };

    fn from(stop: UpkeepStop) -> RoundStop {
        match stop {
            UpkeepStop::Damaged(name, damage) => RoundStop::Damaged(name, damage),
            UpkeepStop::PageMissing(name, number) => RoundStop::PageMissing(name, number),
            UpkeepStop::Store(fault) => RoundStop::Store(fault),
            UpkeepStop::Memory => RoundStop::Memory,
        }
    }
}
