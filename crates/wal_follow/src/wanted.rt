//! The pages of a piece.

ghost use Rattle.std.specs.Prelude.{◌≡◌, IfOk};
ghost use Rattle.wal_follow.specs.WantedPages.{AreListed, written, has_written};

use ls_base::{Memory, PageList, PageSize};
use snapshot_read::PageMap;
use std::alloc::Global;

/// The numbers of the pages of a piece, in rising order: up to the least size those that a frame behind the
/// offset has, and all behind it up to the commit's size, but not the lock page. `Memory` for want of it.
pub(crate) fn wanted_pages(
    alloc: Global,
    newer: &PageMap,
    behind: u64,
    size: PageSize,
    least: u32,
    commit: u32,
) -> Result<PageList, Memory>
    ensures { IfOk result (AreListed newer.now.offsets behind size least commit) }
{
    let lock = size.lock_page();
    let mut list = written_pages(alloc, newer, behind, lock, least.min(commit))?;
    for below in least..commit {
        let number = below + 1;
        if number != lock {
            list.push(number)?;
        }
    }
    Ok(list)
}

/// Of those numbers the ones up to the least size.
fn written_pages(
    alloc: Global,
    newer: &PageMap,
    behind: u64,
    lock: u32,
    least: u32,
) -> Result<PageList, Memory>
    ensures value { IfOk result (λ numbers. numbers ≡ written newer.now.offsets behind lock least) }
{
    let mut list = PageList::new(alloc);
    for number in &newer.numbers(alloc)? {
        if is_written(newer, behind, lock, least, *number) {
            list.push(*number)?;
        }
    }
    Ok(list)
}

/// Whether a frame behind the offset has the page, which isn't above the least size, and isn't the lock page.
fn is_written(newer: &PageMap, behind: u64, lock: u32, least: u32, number: u32) -> bool
    ensures { result ≡ has_written newer.now.offsets behind lock least number }
{
    if number < 1 || number > least || number == lock {
        return false;
    }
    match newer.get(number) {
        Some(at) => at > behind,
        None => false,
    }
}
