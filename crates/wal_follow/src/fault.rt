//! Why a call of the follower failed.

ghost use Rattle.std.specs.Prelude.{◌≡◌};
ghost use Rattle.wal_follow.specs.PageFaults.{page_fault};
ghost use Rattle.wal_follow.specs.declared.fault.FollowFault.TheVariants.{Live, Memory};

use db_page::HeaderFault;
use live_gate::LiveFault;
use ls_base::Memory as NoMemory;
use snapshot_read::PageFault;
use std::alloc::{AllocError, AllocFailed};
use thiserror::Error;

/// How the log shows that someone didn't keep to the gate.
#[derive(Clone, Copy, Debug, PartialEq, Eq)]
pub enum Broken {
    /// The header of the log has other salts than the found place, or isn't valid.
    Salts {
        /// The salts of the found place.
        was: (u32, u32),
        /// Those of the header, if it is valid.
        now: Option<(u32, u32)>,
    },
    /// The log ended before the found commit did.
    Short {
        /// The offset of the byte that didn't come, in bytes from the start of the log.
        at: u64,
    },
}

/// Why a call of the follower failed.
#[derive(Clone, Copy, Debug, PartialEq, Eq, Error)]
pub enum FollowFault {
    /// The database file has no header of a database in WAL mode.
    #[error("the database file has no header of a database in WAL mode")]
    Header(HeaderFault),
    /// The log has a commit, and another page size than the database file.
    #[error("the database has pages of {db} bytes, and its log of {wal}")]
    SizesDiffer {
        /// The page size of the database file in bytes.
        db: u32,
        /// That of the log.
        wal: u32,
    },
    /// The log has so many bytes, more than 2^32.
    #[error("the log has {0} bytes")]
    WalTooLong(u64),
    /// The found state has so many bytes, more than 2^40.
    #[error("the database has {0} bytes")]
    TooLarge(u64),
    /// Someone didn't keep to the gate.
    #[error("the gate was broken")]
    GateBroken(Broken),
    /// The live database failed. Its count of faults has risen, or stands at its last value.
    #[error("the live database failed")]
    Live(LiveFault),
    /// There was no memory for the call.
    #[error("out of memory")]
    Memory,
}

impl From<LiveFault> for FollowFault {
    ghost from_gives = { λ fault e. e ≡ Live fault };

    fn from(fault: LiveFault) -> FollowFault {
        FollowFault::Live(fault)
    }
}

impl From<NoMemory> for FollowFault {
    ghost from_gives = { λ _ e. e ≡ Memory };

    fn from(_: NoMemory) -> FollowFault {
        FollowFault::Memory
    }
}

impl From<PageFault> for FollowFault {
    ghost from_gives = { λ fault e. e ≡ page_fault fault };

    fn from(fault: PageFault) -> FollowFault {
        match fault {
            PageFault::Live(fault) => FollowFault::Live(fault),
            PageFault::Short { at } => FollowFault::GateBroken(Broken::Short { at }),
        }
    }
}

impl From<AllocError> for FollowFault {
    ghost from_gives = { λ _ e. e ≡ Memory };

    fn from(_: AllocError) -> FollowFault {
        FollowFault::Memory
    }
}

impl<T: Drop> From<AllocFailed<T>> for FollowFault {
    ghost from_gives = { λ _ e. e ≡ Memory };

    fn from(_: AllocFailed<T>) -> FollowFault {
        FollowFault::Memory
    }
}
