//! Why a call of a live database failed.

ghost use Rattle.std.specs.Prelude.{◌≡◌};
ghost use Rattle.live_gate.specs.declared.fault.PassFault.TheVariants.{Live, Memory};

use ls_base::Memory as NoMemory;
use std::alloc::{AllocError, AllocFailed};
use thiserror::Error;

/// The live database failed. Its count of faults has risen, or stands at its last value.
#[derive(Clone, Copy, Debug, PartialEq, Eq, Error)]
#[error("the live database failed")]
pub struct LiveFault;

/// Why a call that takes memory failed.
#[derive(Clone, Copy, Debug, PartialEq, Eq, Error)]
pub enum PassFault {
    /// The live database failed. Its count of faults has risen, or stands at its last value.
    #[error("the live database failed")]
    Live(LiveFault),
    /// There was no memory for the call.
    #[error("out of memory")]
    Memory,
}

impl From<LiveFault> for PassFault {
    ghost from_gives = { λ fault e. e ≡ Live fault };

    fn from(fault: LiveFault) -> PassFault {
        PassFault::Live(fault)
    }
}

impl From<NoMemory> for PassFault {
    ghost from_gives = { λ _ e. e ≡ Memory };

    fn from(_: NoMemory) -> PassFault {
        PassFault::Memory
    }
}

impl From<AllocError> for PassFault {
    ghost from_gives = { λ _ e. e ≡ Memory };

    fn from(_: AllocError) -> PassFault {
        PassFault::Memory
    }
}

impl<T: Drop> From<AllocFailed<T>> for PassFault {
    ghost from_gives = { λ _ e. e ≡ Memory };

    fn from(_: AllocFailed<T>) -> PassFault {
        PassFault::Memory
    }
}
