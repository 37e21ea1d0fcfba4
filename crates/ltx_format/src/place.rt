//! The fields of the place.

ghost use Rattle.std.specs.Prelude.{◌≡◌};
ghost use Rattle.ltx_format.specs.FirstFault as spec;
ghost use Rattle.ltx_format.specs.Reading.{Reads, wal_at, rest_at, place_at};

use crate::fault::LtxFault;
use crate::field::{behind_u64, u32_at, u64_at};
use ls_base::{PageSize, Place};

/// The offset of the first frame of a log, which is also the length of the log's header in bytes.
pub(crate) const FIRST_FRAME: u64 = 32;
/// The length of a frame's header in bytes.
const FRAME_HEADER_BYTES: u64 = 24;
/// The greatest length of a log in bytes.
const LOG_BYTES: u64 = 1 << 32;
/// The bit that is set in each sum of a place at rest.
const TOP_BIT: u64 = 1 << 63;

/// The place that the fields from the log's offset on say, and the bytes behind them.
#[tactic(auto, unfolding(crate::specs::Reading::place_at))]
pub(crate) fn place_of(size: PageSize, bytes: &[u8]) -> Result<(Place, &[u8]), LtxFault>
    ensures { Reads (λ x. (x.0, x.1.now)) result (place_at size bytes.now) }
{
    let (offset, rest) = u64_at(bytes)?;
    if offset == FIRST_FRAME {
        return wal_of(size, rest);
    }
    if offset == 0 {
        return rest_of(rest);
    }
    Err(LtxFault::BadReserved)
}

/// A place in the log, from the log's length on.
#[tactic(auto, unfolding(crate::specs::Reading::wal_at))]
fn wal_of(size: PageSize, bytes: &[u8]) -> Result<(Place, &[u8]), LtxFault>
    ensures { Reads (λ x. (x.0, x.1.now)) result (wal_at size bytes.now) }
{
    let (log, rest) = u64_at(bytes)?;
    let (salt1, rest) = u32_at(rest)?;
    let (salt2, rest) = u32_at(rest)?;
    let rest = behind_u64(0, LtxFault::BadReserved, rest)?;
    let (s0, rest) = u32_at(rest)?;
    let (s1, rest) = u32_at(rest)?;
    if !are_frames(size, log) {
        return Err(LtxFault::BadReserved);
    }
    let end = FIRST_FRAME + log;
    let place = Place::Wal {
        salt1,
        salt2,
        end,
        s0,
        s1,
    };
    Ok((place, rest))
}

/// Whether this many bytes are whole frames, at least one, and end within a log.
fn are_frames(size: PageSize, bytes: u64) -> bool
    ensures { result ≡ spec.are_frames size bytes }
{
    let frame = FRAME_HEADER_BYTES + u64::from(size.get());
    bytes % frame == 0 && bytes >= frame && bytes <= LOG_BYTES - FIRST_FRAME
}

/// A place at rest, from the log's length on.
#[tactic(auto, unfolding(crate::specs::Reading::rest_at))]
fn rest_of(bytes: &[u8]) -> Result<(Place, &[u8]), LtxFault>
    ensures { Reads (λ x. (x.0, x.1.now)) result (rest_at bytes.now) }
{
    let rest = behind_u64(0, LtxFault::BadReserved, bytes)?;
    let rest = behind_u64(0, LtxFault::BadReserved, rest)?;
    let rest = behind_u64(0, LtxFault::BadReserved, rest)?;
    let (sum, rest) = u64_at(rest)?;
    if sum < TOP_BIT {
        return Err(LtxFault::BadReserved);
    }
    Ok((Place::Rest { sum }, rest))
}
