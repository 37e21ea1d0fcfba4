//! The frames of a commit.

ghost use Rattle.std.specs.Prelude.{◌≡◌, ◌+◌, ◌^◌, ◌<◌, ◌≤◌, ◌++◌, length, drop, ◌↔◌, IsTrue, IfOk, OnOk};
ghost use Rattle.std.specs.FinMap as map;
ghost use Rattle.std.specs.List.{concat};
ghost use Rattle.wal_frames.specs.WalFrame.{frame_length};
ghost use Rattle.sim_writer.specs.CommitFrames.{IsCommit, IsCommittable, HasSize, SaysSize, AreChecked, size_before};
ghost use Rattle.sim_writer.specs.CommitFrames.{commit_frames, commit_sums};

use db_page::read_db_header;
use ls_base::{Bytes, ChangePages, Memory, Page, PageSize};
use ls_sums::WalSum;
use wal_frames::{WalHeader, write_frame};

/// Puts the frames of a commit last, where these are the running sums before them, and answers those behind.
/// The buffer has the length of a frame.
pub(crate) fn put_frames(
    head: &WalHeader,
    sums: WalSum,
    pages: &ChangePages,
    size: u32,
    buffer: &mut [u8],
    into: &mut Bytes,
) -> Result<WalSum, Memory>
    requires commit { IsCommit head.now.size pages.now size }
    requires room { length buffer.old ≡ frame_length head.now }
    ensures bytes { OnOk result
        (into.new ≡ into.old ++ concat (commit_frames head.now sums pages.now size (map.keys pages.now))) }
    ensures checked { OnOk result (AreChecked head.now sums pages.now size (map.keys pages.now)) }
    ensures sums { IfOk result (λ after. after ≡ commit_sums head.now sums pages.now size (map.keys pages.now)) }
{
    let mut sums = sums;
    let mut at = 0;
    while let Some(number) = pages.number_at(at) {
        let Some(page) = pages.get(number) else {
            unreachable!()
        };
        let commit = size_at(pages, at, size);
        sums = write_frame(head, sums, number, commit, page.bytes(), buffer);
        into.extend(buffer)?;
        at += 1;
    }
    Ok(sums)
}

/// What the frame of the page at this place says of the size after the commit: it is 0 but in the last.
fn size_at(pages: &ChangePages, at: u64, size: u32) -> u32
    requires { at + 1 < 2 ^ 64 }
    ensures { result ≡ size_before size (drop (at + 1) (map.keys pages.now)) }
{
    match pages.number_at(at + 1) {
        Some(_) => 0,
        None => size,
    }
}

/// Whether these pages may be committed in a log of this page size.
pub(crate) fn is_commit(page_size: PageSize, pages: &ChangePages, size: u32) -> bool
    ensures { IsTrue result ↔ IsCommit page_size pages.now size }
{
    if pages.number_at(0).is_none() {
        return false;
    }
    let mut at = 0;
    while let Some(number) = pages.number_at(at) {
        let Some(page) = pages.get(number) else {
            unreachable!()
        };
        if !is_committable(page_size, size, number, page) {
            return false;
        }
        at += 1;
    }
    true
}

/// Whether the page may stand in a commit after which the database has so many pages.
fn is_committable(page_size: PageSize, size: u32, number: u32, page: &Page) -> bool
    ensures { IsTrue result ↔ IsCommittable page_size size number page.now }
{
    1 <= number && number <= size && fits(page_size, number, page)
}

/// Whether the page has the page size and, where it is page 1, says no other.
fn fits(page_size: PageSize, number: u32, page: &Page) -> bool
    ensures { IsTrue result ↔ HasSize page_size number page.now }
{
    let bytes = page.bytes();
    if bytes.len() != page_size.get() as usize {
        return false;
    }
    number != 1 || says_size(page_size, bytes)
}

/// Whether the header with which page 1 begins, where it is accepted, says this page size.
fn says_size(page_size: PageSize, page: &[u8]) -> bool
    requires { 100 ≤ length page.now }
    ensures { IsTrue result ↔ SaysSize page_size page.now }
{
    match read_db_header(&page[..100]) {
        Ok(said) => said == page_size,
        Err(_) => true,
    }
}
