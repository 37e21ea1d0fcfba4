//! Why bytes are no LTX file.

ghost use Rattle.std.specs.Prelude.{◌≡◌};
ghost use Rattle.ltx_format.specs.declared.fault.DecodeFault.TheVariants.{Fault as of_fault, Memory as want};

use std::alloc::{AllocError, AllocFailed};
use thiserror::Error;

/// What is wrong with the bytes of a file. The parts of a file are tested in their order, and the first
/// fault is told (`specs/FirstFault.antt` has the tests).
#[derive(Clone, Copy, Debug, PartialEq, Eq, Error)]
pub enum LtxFault {
    /// The bytes end within the header, a block or the trailer.
    #[error("short")]
    Short,
    /// The first four bytes aren't `LTX1`.
    #[error("bad magic")]
    BadMagic,
    /// Bit 0 of the header's flags, or of a block's, is set.
    #[error("compressed")]
    Compressed,
    /// The header's flags are neither 2 nor 6, or a block's aren't 0.
    #[error("bad flags")]
    BadFlags,
    /// The page size isn't a power of two from 512 to 65536.
    #[error("bad page size")]
    BadPageSize,
    /// The database would have no page, or more than 2^40 bytes.
    #[error("bad commit")]
    BadCommit,
    /// The first transaction is 0, or above the last one.
    #[error("bad range")]
    BadRange,
    /// Another field of the header isn't as the format wants it, or the post-apply checksum isn't 0.
    #[error("bad reserved field")]
    BadReserved,
    /// The block of this number isn't above the one before, is above the commit, or is the lock page. For
    /// number 0: the blocks end, and a file from transaction 1 on lacks a page other than the lock page.
    #[error("bad page order at {0}")]
    BadOrder(u32),
    /// The sum that the file keeps isn't the one found over the bytes before it.
    #[error("bad checksum")]
    BadSum {
        /// The sum that stands in the trailer.
        kept: u64,
        /// The sum of the bytes, with the top bit set.
        found: u64,
    },
    /// Bytes stand behind the trailer.
    #[error("extra bytes")]
    Extra,
    /// The index has this number where the block at that place has another one. For number 0 also: the
    /// index's count isn't how many blocks there are.
    #[error("bad index at {0}")]
    BadIndex(u32),
}

/// Why a file could not be read.
#[derive(Clone, Copy, Debug, PartialEq, Eq, Error)]
pub enum DecodeFault {
    /// The bytes have this fault.
    #[error(transparent)]
    Fault(LtxFault),
    /// There was no memory for the pages.
    #[error("out of memory")]
    Memory,
}

impl From<LtxFault> for DecodeFault {
    ghost from_gives = { λ fault e. e ≡ of_fault fault };

    fn from(fault: LtxFault) -> DecodeFault {
        DecodeFault::Fault(fault)
    }
}

impl From<ls_base::Memory> for DecodeFault {
    ghost from_gives = { λ _ e. e ≡ want };

    fn from(_: ls_base::Memory) -> DecodeFault {
        DecodeFault::Memory
    }
}

impl From<AllocError> for DecodeFault {
    ghost from_gives = { λ _ e. e ≡ want };

    fn from(_: AllocError) -> DecodeFault {
        DecodeFault::Memory
    }
}

impl<T: Drop> From<AllocFailed<T>> for DecodeFault {
    ghost from_gives = { λ _ e. e ≡ want };

    fn from(_: AllocFailed<T>) -> DecodeFault {
        DecodeFault::Memory
    }
}
