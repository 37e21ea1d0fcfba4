//! The index that is read: the numbers of the pages behind the blocks.

ghost use Rattle.std.specs.Prelude.{◌≡◌, length};
ghost use Rattle.std.specs.FinMap as map;
ghost use Rattle.ltx_format.specs.Reading.{Reads, entry_at, index_at};

use crate::fault::LtxFault;
use crate::field::{behind_u32, u32_at};
use ls_base::ChangePages;

/// The bytes behind the index of these pages.
pub(crate) fn index_of<'a>(
    pages: &ChangePages,
    count: u32,
    bytes: &'a [u8],
) -> Result<&'a [u8], LtxFault>
    requires { count ≡ length (map.entries pages.now) }
    ensures { Reads (λ x. x.now) result (index_at (map.keys pages.now) bytes.now) }
{
    let mut rest = bytes;
    for at in 0..count {
        if let Some(number) = pages.number_at(u64::from(at)) {
            rest = entry_of(number, rest)?;
        }
    }
    behind_u32(count, LtxFault::BadIndex(0), rest)
}

/// The bytes behind this number of the index.
#[tactic(auto, unfolding(crate::specs::Reading::entry_at))]
fn entry_of(number: u32, bytes: &[u8]) -> Result<&[u8], LtxFault>
    ensures { Reads (λ x. x.now) result (entry_at number bytes.now) }
{
    let (found, rest) = u32_at(bytes)?;
    if found != number {
        return Err(LtxFault::BadIndex(found));
    }
    Ok(rest)
}
