//! Why a file on a disk could not be read.

ghost use Rattle.std.specs.Prelude.{◌≡◌};
ghost use Rattle.ltx_reader.specs.declared.read_fault.ReadFault.TheVariants.{Disk as of_disk, Fault as of_file};
ghost use Rattle.ltx_reader.specs.declared.read_fault.ReadFault.TheVariants.{Memory as want};

use crash_disk::DiskFault;
use ltx_format::LtxFault;
use std::alloc::{AllocError, AllocFailed};
use thiserror::Error;

/// Why a file on a disk could not be read.
#[derive(Clone, Copy, Debug, PartialEq, Eq, Error)]
pub enum ReadFault {
    /// The disk failed. Its count of faults has risen, or stands at its last value.
    #[error("the disk failed")]
    Disk(DiskFault),
    /// The bytes of the file have this fault.
    #[error(transparent)]
    Fault(LtxFault),
    /// There was no memory.
    #[error("out of memory")]
    Memory,
}

impl From<DiskFault> for ReadFault {
    ghost from_gives = { λ fault e. e ≡ of_disk fault };

    fn from(fault: DiskFault) -> ReadFault {
        ReadFault::Disk(fault)
    }
}

impl From<LtxFault> for ReadFault {
    ghost from_gives = { λ fault e. e ≡ of_file fault };

    fn from(fault: LtxFault) -> ReadFault {
        ReadFault::Fault(fault)
    }
}

impl From<ls_base::Memory> for ReadFault {
    ghost from_gives = { λ _ e. e ≡ want };

    fn from(_: ls_base::Memory) -> ReadFault {
        ReadFault::Memory
    }
}

impl From<AllocError> for ReadFault {
    ghost from_gives = { λ _ e. e ≡ want };

    fn from(_: AllocError) -> ReadFault {
        ReadFault::Memory
    }
}
