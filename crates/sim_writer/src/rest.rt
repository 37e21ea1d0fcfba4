//! The entry of a database file alone.

ghost use Rattle.std.specs.Prelude.{◌≡◌, ◌≤◌, ◌++◌, min, length, take, drop, replicate, bit_xor, IfOk};
ghost use Rattle.ls_base.specs.PageSize.{lock_page};
ghost use Rattle.ls_sums.specs.PageSum.{counted_sum};
ghost use Rattle.wal_frames.specs.View.{file_page, page_at_rest};
ghost use Rattle.sim_writer.specs.Sound.{IsFileEntry};

use ls_base::{Entry, Memory, Page, PageSize, Pages, Place};
use ls_sums::page_sum;
use std::alloc::Global;

/// The bit that is set in the sum of each place at rest.
const TOP_BIT: u64 = 1 << 63;

/// The bytes from the offset on.
pub(crate) fn rest_from(bytes: &[u8], at: u64) -> &[u8]
    ensures { result.now ≡ drop at bytes.now }
{
    let at = (at as usize).min(bytes.len());
    &bytes[at..]
}

/// Copies as many bytes as there is room for, and answers how many.
pub(crate) fn copy_front(from: &[u8], into: &mut [u8]) -> usize
    ensures count { result ≡ min (length from.now) (length into.old) }
    ensures front { into.new ≡ take (length into.old) from.now ++ drop (length from.now) into.old }
{
    let count = from.len().min(into.len());
    into[..count].copy_from_slice(&from[..count]);
    count
}

/// Fills the buffer with the bytes and, where they are too few, zeros.
pub(crate) fn fill_page(from: &[u8], into: &mut [u8])
    ensures { into.new ≡ take (length into.old) (from.now ++ replicate (length into.old) 0) }
{
    into.fill(0);
    copy_front(from, into);
}

/// The page of this number, from 1, of the database file. Past its end zeros stand.
pub(crate) fn page_of_file(
    alloc: Global,
    file: &[u8],
    size: PageSize,
    number: u32,
) -> Result<Page, Memory>
    requires { 1 ≤ number }
    ensures { IfOk result (λ page. page ≡ file_page size file.now number) }
{
    let mut page = Page::zeroed(alloc, size)?;
    let at = u64::from(number - 1) * u64::from(size.get());
    fill_page(rest_from(file, at), page.bytes_mut());
    Ok(page)
}

/// The same in the state at rest, which has zeros in the place of the lock page.
fn page_of_rest(alloc: Global, file: &[u8], size: PageSize, number: u32) -> Result<Page, Memory>
    requires { 1 ≤ number }
    ensures { IfOk result (λ page. page ≡ page_at_rest size file.now number) }
{
    if number == size.lock_page() {
        return Page::zeroed(alloc, size);
    }
    page_of_file(alloc, file, size, number)
}

/// The sum with that of the page added. The lock page adds nothing.
fn sum_with(size: PageSize, number: u32, sum: u64, page: &Page) -> u64
    ensures { result ≡ bit_xor sum (counted_sum (lock_page size) number page.now) }
{
    if number == size.lock_page() {
        return sum;
    }
    sum ^ page_sum(number, page.bytes())
}

/// The entry of the database file alone: the state of the file, and its place at rest. `Memory` for want of
/// it, as for a file of more pages than numbers.
pub(crate) fn rest_entry(alloc: Global, file: &[u8], size: PageSize) -> Result<Entry, Memory>
    ensures { IfOk result (IsFileEntry size file.now) }
{
    let bytes = size.get() as usize;
    let count = ((file.len() + (bytes - 1)) / bytes).max(1);
    if count > u32::MAX as usize {
        return Err(Memory);
    }
    let mut pages = Pages::new(alloc);
    let mut sum = 0;
    for before in 0..count {
        let number = before as u32 + 1;
        let page = page_of_rest(alloc, file, size, number)?;
        sum = sum_with(size, number, sum, &page);
        pages.push(page)?;
    }
    Ok(Entry {
        size,
        place: Place::Rest { sum: sum | TOP_BIT },
        pages,
    })
}
