//! Reading the header.

ghost use Rattle.std.specs.Prelude.{◌≡◌};
ghost use Rattle.ltx_format.specs.LtxFormat as spec;
ghost use Rattle.ltx_format.specs.Reading.{Reads, size_from, commit_at, range_from, fields_at, header_at};

use crate::fault::LtxFault;
use crate::field::{behind_u32, behind_u64, check_flags, u32_at, u64_at};
use crate::header::LtxHeader;
use crate::place::place_of;
use ls_base::{PageSize, Txid};

/// The length of a header in bytes.
pub const HEADER_BYTES: usize = 100;
/// The first four bytes of each file, `LTX1`, as a number.
pub(crate) const MAGIC: u32 = 0x4c54_5831;
/// The flags of a file that has no index: it has no rolling checksums either.
const PLAIN_FLAGS: u32 = 2;
/// The flags of a file that has an index.
const INDEX_FLAGS: u32 = 6;
/// The greatest length of a database in bytes.
const DATABASE_BYTES: u64 = 1 << 40;

/// The flags of a file with or without an index.
pub(crate) fn flags_of(index: bool) -> u32
    ensures { result ≡ spec.header_flags index }
{
    if index { INDEX_FLAGS } else { PLAIN_FLAGS }
}

/// The header at the front, and the bytes behind it.
#[tactic(auto, unfolding(crate::specs::Reading::header_at))]
pub(crate) fn header_of(bytes: &[u8]) -> Result<(LtxHeader, &[u8]), LtxFault>
    ensures { Reads (λ x. (x.0, x.1.now)) result (header_at bytes.now) }
{
    if bytes.len() < HEADER_BYTES {
        return Err(LtxFault::Short);
    }
    fields_of(bytes)
}

/// The header by its fields, and the bytes behind it.
#[tactic(auto, unfolding(crate::specs::Reading::fields_at))]
fn fields_of(bytes: &[u8]) -> Result<(LtxHeader, &[u8]), LtxFault>
    ensures { Reads (λ x. (x.0, x.1.now)) result (fields_at bytes.now) }
{
    let rest = behind_u32(MAGIC, LtxFault::BadMagic, bytes)?;
    let (flags, rest) = u32_at(rest)?;
    let index = flags == INDEX_FLAGS;
    check_flags(flags_of(index), flags)?;
    let (size, rest) = u32_at(rest)?;
    let size = size_of(size)?;
    let (commit, rest) = commit_of(size, rest)?;
    let (min, rest) = u64_at(rest)?;
    let (max, rest) = u64_at(rest)?;
    let (min, max) = range_of(min, max)?;
    let (moment, rest) = u64_at(rest)?;
    let rest = behind_u64(0, LtxFault::BadReserved, rest)?;
    let (place, rest) = place_of(size, rest)?;
    let rest = behind_u64(0, LtxFault::BadReserved, rest)?;
    let rest = behind_u32(0, LtxFault::BadReserved, rest)?;
    let header = LtxHeader {
        size,
        commit,
        min,
        max,
        moment,
        place,
        index,
    };
    Ok((header, rest))
}

/// The page size of this number.
fn size_of(number: u32) -> Result<PageSize, LtxFault>
    ensures { Reads (λ x. x) result (size_from number) }
{
    PageSize::from_u32(number).ok_or(LtxFault::BadPageSize)
}

/// How many pages the database has afterwards.
#[tactic(auto, unfolding(crate::specs::Reading::commit_at))]
fn commit_of(size: PageSize, bytes: &[u8]) -> Result<(u32, &[u8]), LtxFault>
    ensures { Reads (λ x. (x.0, x.1.now)) result (commit_at size bytes.now) }
{
    let (commit, rest) = u32_at(bytes)?;
    if commit == 0 || u64::from(commit) * u64::from(size.get()) > DATABASE_BYTES {
        return Err(LtxFault::BadCommit);
    }
    Ok((commit, rest))
}

/// The first and the last transaction of these numbers.
#[tactic(auto, unfolding(crate::specs::Reading::range_from))]
fn range_of(min: u64, max: u64) -> Result<(Txid, Txid), LtxFault>
    ensures { Reads (λ x. x) result (range_from min max) }
{
    match (Txid::new(min), Txid::new(max)) {
        (Some(first), Some(last)) if min <= max => Ok((first, last)),
        _ => Err(LtxFault::BadRange),
    }
}
