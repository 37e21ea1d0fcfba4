//! The end of a file, behind its blocks and its index.

ghost use Rattle.std.specs.Prelude.{◌≡◌};
ghost use Rattle.ltx_format.specs.LtxFormat as spec;
ghost use Rattle.ltx_format.specs.Reading.{Reads, end_at};

use crate::fault::LtxFault;
use crate::field::u64_at;
use ls_sums::Crc64;

/// The bit that is set in each sum of a file.
pub(crate) const TOP_BIT: u64 = 1 << 63;

/// The sum that a file of these bytes carries behind them.
pub(crate) fn file_sum(bytes: &[u8]) -> u64
    ensures { result ≡ spec.file_sum bytes.now }
{
    let mut check = Crc64::new();
    check.over(bytes);
    check.finish() | TOP_BIT
}

/// Tests the end of the file, behind its blocks and its index: post-apply checksum 0, the sum of all bytes
/// before it, and nothing behind it.
#[tactic(auto, unfolding(crate::specs::Reading::end_at))]
pub(crate) fn end_of(file: &[u8], bytes: &[u8]) -> Result<(), LtxFault>
    ensures { Reads (λ _. tt) result (end_at file.now bytes.now) }
{
    let (check, at_sum) = u64_at(bytes)?;
    let (kept, rest) = u64_at(at_sum)?;
    if check != 0 {
        return Err(LtxFault::BadReserved);
    }
    let found = file_sum(&file[..file.len().saturating_sub(at_sum.len())]);
    if kept != found {
        return Err(LtxFault::BadSum { kept, found });
    }
    if !rest.is_empty() {
        return Err(LtxFault::Extra);
    }
    Ok(())
}
