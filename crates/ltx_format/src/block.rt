//! The blocks of the pages.

ghost use Rattle.std.specs.Prelude.{◌≡◌, length, IfOk};
ghost use Rattle.std.specs.FinMap as map;
ghost use Rattle.ltx_format.specs.Reading.{Reads, ReadsInMemory, block_at, last_at, page_at, blocks_at};

use crate::fault::{DecodeFault, LtxFault};
use crate::field::{check_flags, u16_at, u32_at};
use crate::header::LtxHeader;
use ls_base::{ChangePages, Page};
use std::alloc::Global;

/// The pages of the blocks at the front, how many they are, and the bytes behind them. The block of number
/// 0 ends them.
pub(crate) fn pages_of<'a>(
    alloc: Global,
    header: &LtxHeader,
    bytes: &'a [u8],
) -> Result<(ChangePages, u32, &'a [u8]), DecodeFault>
    ensures value { ReadsInMemory (λ x. (map.entries x.0, x.2.now)) result
        (blocks_at header.now.commit header.now.size header.now.commit 0 bytes.now) }
    ensures count { IfOk result (λ x. x.1 ≡ length (map.entries x.0)) }
{
    let mut pages = ChangePages::new(alloc);
    let mut last = 0;
    let mut rest = bytes;
    for count in 0..header.commit {
        let (number, behind) = number_of(rest)?;
        if number == 0 {
            return Ok((pages, count, behind));
        }
        let (page, behind) = page_of(header, last, number, behind)?;
        let page = Page::copied(alloc, page)?;
        pages.put(number, page)?;
        last = number;
        rest = behind;
    }
    let rest = last_of(rest)?;
    Ok((pages, header.commit, rest))
}

/// The bytes behind a block that must have number 0, as a page of every number stands before it.
#[tactic(auto, unfolding(crate::specs::Reading::last_at))]
fn last_of(bytes: &[u8]) -> Result<&[u8], LtxFault>
    ensures { Reads (λ x. x.now) result (last_at bytes.now) }
{
    let (number, rest) = number_of(bytes)?;
    if number != 0 {
        return Err(LtxFault::BadOrder(number));
    }
    Ok(rest)
}

/// The number of a block, and the bytes behind its flags 0.
#[tactic(auto, unfolding(crate::specs::Reading::block_at))]
fn number_of(bytes: &[u8]) -> Result<(u32, &[u8]), LtxFault>
    ensures { Reads (λ x. (x.0, x.1.now)) result (block_at bytes.now) }
{
    let (number, rest) = u32_at(bytes)?;
    let (flags, rest) = u16_at(rest)?;
    check_flags(0, u32::from(flags))?;
    Ok((number, rest))
}

/// The page of this number behind its block's flags, where the number rises and isn't the lock page.
#[tactic(auto, unfolding(crate::specs::Reading::page_at))]
fn page_of<'a>(
    header: &LtxHeader,
    last: u32,
    number: u32,
    bytes: &'a [u8],
) -> Result<(&'a [u8], &'a [u8]), LtxFault>
    ensures { Reads (λ x. (x.0.now, x.1.now)) result (page_at header.now.size header.now.commit last number bytes.now) }
{
    if number <= last || number > header.commit || number == header.size.lock_page() {
        return Err(LtxFault::BadOrder(number));
    }
    let size = header.size.get() as usize;
    if bytes.len() < size {
        return Err(LtxFault::Short);
    }
    Ok(bytes.split_at(size))
}
