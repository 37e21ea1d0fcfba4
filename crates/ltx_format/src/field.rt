//! Numbers, read from the front of bytes.

ghost use Rattle.std.specs.Int.{w16, w32, w64};
ghost use Rattle.ltx_format.specs.Reading.{Reads, number_at, behind, flags_from};

use crate::fault::LtxFault;

/// The 16-bit number at the front, and the bytes behind it.
#[tactic(auto, unfolding(crate::specs::Reading::number_at))]
pub(crate) fn u16_at(bytes: &[u8]) -> Result<(u16, &[u8]), LtxFault>
    ensures { Reads (λ x. (x.0, x.1.now)) result (number_at w16 bytes.now) }
{
    if bytes.len() < 2 {
        return Err(LtxFault::Short);
    }
    let (front, rest) = bytes.split_at(2);
    Ok((u16::from_be_bytes([front[0], front[1]]), rest))
}

/// The 32-bit number at the front, and the bytes behind it.
#[tactic(auto, unfolding(crate::specs::Reading::number_at))]
pub(crate) fn u32_at(bytes: &[u8]) -> Result<(u32, &[u8]), LtxFault>
    ensures { Reads (λ x. (x.0, x.1.now)) result (number_at w32 bytes.now) }
{
    if bytes.len() < 4 {
        return Err(LtxFault::Short);
    }
    let (front, rest) = bytes.split_at(4);
    let number = u32::from_be_bytes([front[0], front[1], front[2], front[3]]);
    Ok((number, rest))
}

/// The 64-bit number at the front, and the bytes behind it.
#[tactic(auto, unfolding(crate::specs::Reading::number_at))]
pub(crate) fn u64_at(bytes: &[u8]) -> Result<(u64, &[u8]), LtxFault>
    ensures { Reads (λ x. (x.0, x.1.now)) result (number_at w64 bytes.now) }
{
    if bytes.len() < 8 {
        return Err(LtxFault::Short);
    }
    let (front, rest) = bytes.split_at(8);
    let number = u64::from_be_bytes([
        front[0], front[1], front[2], front[3], front[4], front[5], front[6], front[7],
    ]);
    Ok((number, rest))
}

/// The bytes behind this 32-bit number, which must stand at the front, else this is the fault.
#[tactic(auto, unfolding(crate::specs::Reading::behind))]
pub(crate) fn behind_u32(number: u32, fault: LtxFault, bytes: &[u8]) -> Result<&[u8], LtxFault>
    ensures { Reads (λ x. x.now) result (behind w32 number fault bytes.now) }
{
    let (found, rest) = u32_at(bytes)?;
    if found != number {
        return Err(fault);
    }
    Ok(rest)
}

/// The bytes behind this 64-bit number, which must stand at the front, else this is the fault.
#[tactic(auto, unfolding(crate::specs::Reading::behind))]
pub(crate) fn behind_u64(number: u64, fault: LtxFault, bytes: &[u8]) -> Result<&[u8], LtxFault>
    ensures { Reads (λ x. x.now) result (behind w64 number fault bytes.now) }
{
    let (found, rest) = u64_at(bytes)?;
    if found != number {
        return Err(fault);
    }
    Ok(rest)
}

/// Tests flags, which must be these.
#[tactic(auto, unfolding(crate::specs::Reading::flags_from))]
pub(crate) fn check_flags(flags: u32, found: u32) -> Result<(), LtxFault>
    ensures { Reads (λ _. tt) result (flags_from flags found) }
{
    if found % 2 != 0 {
        return Err(LtxFault::Compressed);
    }
    if found != flags {
        return Err(LtxFault::BadFlags);
    }
    Ok(())
}
