//! Why a page wasn't read.

ghost use Rattle.std.specs.Prelude.{◌≡◌};
ghost use Rattle.snapshot_read.specs.declared.fault.PageFault.TheVariants.{Live};

use live_gate::LiveFault;
use thiserror::Error;

/// Why a page wasn't read.
#[derive(Clone, Copy, Debug, PartialEq, Eq, Error)]
pub enum PageFault {
    /// The live database failed. Its count of faults has risen, or stands at its last value.
    #[error("the live database failed")]
    Live(LiveFault),
    /// A read of the log gave no byte before the page was whole.
    #[error("the log ends at byte {at}, before the end of a page")]
    Short {
        /// The offset of the byte that didn't come, in bytes from the start of the log.
        at: u64,
    },
}

impl From<LiveFault> for PageFault {
    ghost from_gives = { λ fault e. e ≡ Live fault };

    fn from(fault: LiveFault) -> PageFault {
        PageFault::Live(fault)
    }
}
