//! Why a replica's files could not be listed.

ghost use Rattle.std.specs.Prelude.{◌≡◌};
ghost use Rattle.ltx_command.specs.Stop.{stop_of, stop_of_names, why_of_stop};

use crash_disk::NamesFault;
use ls_answers::Why;
use replica_store::{Damage, FileName, StoreError};

/// Why a replica's files could not be listed.
#[derive(Clone, Copy, Debug)]
pub enum LtxStop {
    /// The header of this file is the first in list order that is damaged.
    Damaged(FileName, Damage),
    /// The replica's disk failed.
    Store,
    /// There was no memory.
    Memory,
}

impl LtxStop {
    /// The answer that this stop is.
    pub fn why(&self) -> Why
        ensures { result ≡ why_of_stop self.now }
    {
        match self {
            LtxStop::Damaged(name, damage) => Why::Damaged(*name, *damage),
            LtxStop::Store => Why::StoreFault,
            LtxStop::Memory => Why::Memory,
        }
    }
}

impl From<StoreError> for LtxStop {
    ghost from_gives = { λ error stop. stop ≡ stop_of error };

    fn from(error: StoreError) -> LtxStop {
        match error {
            StoreError::Store(_) => LtxStop::Store,
            StoreError::Damaged(name, damage) => LtxStop::Damaged(name, damage),
            StoreError::Memory => LtxStop::Memory,
        }
    }
}

impl From<NamesFault> for LtxStop {
    ghost from_gives = { λ fault stop. stop ≡ stop_of_names fault };

    fn from(fault: NamesFault) -> LtxStop {
        match fault {
            NamesFault::Disk(_) => LtxStop::Store,
            NamesFault::Memory => LtxStop::Memory,
        }
    }
}
