//! Why a replication was refused.

ghost use Rattle.std.specs.Prelude.{◌≡◌};
ghost use Rattle.replicate_command.specs.declared.stop.ReplicateStop.TheVariants.{Live, Store, Sink};
ghost use Rattle.replicate_command.specs.Stop.{broken_of, stop_of_follow, stop_of_round, stop_of_store};
ghost use Rattle.replicate_command.specs.Stop.{stop_of_pass, stop_of_names, why_of_stop};

use crash_disk::{DiskFault, NamesFault, OutFault};
use db_page::HeaderFault;
use live_gate::{LiveFault, PassFault};
use ls_answers::{Broken, Why};
use replica_round::RoundStop;
use replica_store::{Damage, FileName, StoreError};
use wal_follow::{Broken as Found, FollowFault};

/// Why a replication was refused.
#[derive(Clone, Copy, Debug)]
pub enum ReplicateStop {
    /// No database is at the path.
    NoDatabase,
    /// The database file has no header of a database in WAL mode.
    Header(HeaderFault),
    /// The log has a commit, and another page size than the database file.
    SizesDiffer {
        /// The page size of the database file in bytes.
        db: u32,
        /// That of the log.
        wal: u32,
    },
    /// The log has so many bytes, more than it may have.
    WalTooLong(u64),
    /// The database has so many bytes, more than it may have.
    TooLarge(u64),
    /// Someone didn't keep to the gate.
    GateBroken(Broken),
    /// This file is damaged: its header, or it is one of a run that was to be merged.
    Damaged(FileName, Damage),
    /// The first file of a run that doesn't fit what those before it make, and the first page that is missing there.
    PageMissing(FileName, u32),
    /// A file is to be stored, and no transaction number is left for it.
    TxidSpent,
    /// The live database failed.
    Live,
    /// The replica's disk failed.
    Store,
    /// The output failed.
    Sink,
    /// There was no memory.
    Memory,
}

impl ReplicateStop {
    /// The answer that this stop is.
    pub fn why(&self) -> Why
        ensures { result ≡ why_of_stop self.now }
    {
        match self {
            ReplicateStop::NoDatabase => Why::NoDatabase,
            ReplicateStop::Header(fault) => Why::Header(*fault),
            ReplicateStop::SizesDiffer { db, wal } => Why::SizesDiffer { db: *db, wal: *wal },
            ReplicateStop::WalTooLong(size) => Why::WalTooLong(*size),
            ReplicateStop::TooLarge(size) => Why::TooLarge(*size),
            ReplicateStop::GateBroken(how) => Why::GateBroken(*how),
            ReplicateStop::Damaged(name, damage) => Why::Damaged(*name, *damage),
            ReplicateStop::PageMissing(name, number) => Why::PageMissing(*name, *number),
            ReplicateStop::TxidSpent => Why::TxidSpent,
            ReplicateStop::Live => Why::LiveFault,
            ReplicateStop::Store => Why::StoreFault,
            ReplicateStop::Sink => Why::SinkFault,
            ReplicateStop::Memory => Why::Memory,
        }
    }
}

/// How the gate was broken, in the words of the answer.
fn broken_of(how: Found) -> Broken
    ensures { result ≡ broken_of how }
{
    match how {
        Found::Salts { was, now } => Broken::Salts { was, now },
        Found::Short { at } => Broken::Short { at },
    }
}

impl From<FollowFault> for ReplicateStop {
    ghost from_gives = { λ fault stop. stop ≡ stop_of_follow fault };

    fn from(fault: FollowFault) -> ReplicateStop {
        match fault {
            FollowFault::Header(fault) => ReplicateStop::Header(fault),
            FollowFault::SizesDiffer { db, wal } => ReplicateStop::SizesDiffer { db, wal },
            FollowFault::WalTooLong(size) => ReplicateStop::WalTooLong(size),
            FollowFault::TooLarge(size) => ReplicateStop::TooLarge(size),
            FollowFault::GateBroken(how) => ReplicateStop::GateBroken(broken_of(how)),
            FollowFault::Live(_) => ReplicateStop::Live,
            FollowFault::Memory => ReplicateStop::Memory,
        }
    }
}

impl From<RoundStop> for ReplicateStop {
    ghost from_gives = { λ round stop. stop ≡ stop_of_round round };

    fn from(stop: RoundStop) -> ReplicateStop {
        match stop {
            RoundStop::Follow(fault) => ReplicateStop::from(fault),
            RoundStop::TxidSpent => ReplicateStop::TxidSpent,
            RoundStop::Store(_) => ReplicateStop::Store,
            RoundStop::Damaged(name, damage) => ReplicateStop::Damaged(name, damage),
            RoundStop::PageMissing(name, number) => ReplicateStop::PageMissing(name, number),
            RoundStop::Memory => ReplicateStop::Memory,
        }
    }
}

impl From<StoreError> for ReplicateStop {
    ghost from_gives = { λ error stop. stop ≡ stop_of_store error };

    fn from(error: StoreError) -> ReplicateStop {
        match error {
            StoreError::Store(_) => ReplicateStop::Store,
            StoreError::Damaged(name, damage) => ReplicateStop::Damaged(name, damage),
            StoreError::Memory => ReplicateStop::Memory,
        }
    }
}

impl From<PassFault> for ReplicateStop {
    ghost from_gives = { λ fault stop. stop ≡ stop_of_pass fault };

    fn from(fault: PassFault) -> ReplicateStop {
        match fault {
            PassFault::Live(_) => ReplicateStop::Live,
            PassFault::Memory => ReplicateStop::Memory,
        }
    }
}

impl From<NamesFault> for ReplicateStop {
    ghost from_gives = { λ fault stop. stop ≡ stop_of_names fault };

    fn from(fault: NamesFault) -> ReplicateStop {
        match fault {
            NamesFault::Disk(_) => ReplicateStop::Store,
            NamesFault::Memory => ReplicateStop::Memory,
        }
    }
}

impl From<LiveFault> for ReplicateStop {
    ghost from_gives = { λ _ stop. stop ≡ Live };

    fn from(_: LiveFault) -> ReplicateStop {
        ReplicateStop::Live
    }
}

impl From<DiskFault> for ReplicateStop {
    ghost from_gives = { λ _ stop. stop ≡ Store };

    fn from(_: DiskFault) -> ReplicateStop {
        ReplicateStop::Store
    }
}

impl From<OutFault> for ReplicateStop {
    ghost from_gives = { λ _ stop. stop ≡ Sink };

    fn from(_: OutFault) -> ReplicateStop {
        ReplicateStop::Sink
    }
}
