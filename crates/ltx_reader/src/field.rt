//! Fields of a file in memory.

ghost use Rattle.std.specs.Int.{w64};
ghost use Rattle.ltx_format.specs.Reading.{Reads, number_at, flags_from};

use ltx_format::LtxFault;

/// The 64-bit number at the front, and the bytes behind it.
#[tactic(auto, unfolding(ltx_format::specs::Reading::number_at))]
pub(crate) fn u64_at(bytes: &[u8]) -> Result<(u64, &[u8]), LtxFault>
    ensures { Reads (λ x. (x.0, x.1.now)) result (number_at w64 bytes.now) }
{
    if bytes.len() < 8 {
        return Err(LtxFault::Short);
    }
    let (front, rest) = bytes.split_at(8);
    let number = u64::from_be_bytes([
        front[0], front[1], front[2], front[3], front[4], front[5], front[6], front[7],
    ]);
    Ok((number, rest))
}

/// Tests the flags of a block, which must be 0.
#[tactic(auto, unfolding(ltx_format::specs::Reading::flags_from))]
pub(crate) fn check_flags(found: u32) -> Result<(), LtxFault>
    ensures { Reads (λ _. tt) result (flags_from 0 found) }
{
    if found % 2 != 0 {
        return Err(LtxFault::Compressed);
    }
    if found != 0 {
        return Err(LtxFault::BadFlags);
    }
    Ok(())
}
