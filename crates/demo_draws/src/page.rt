//! Drawn pages.

ghost use Rattle.std.specs.Prelude.{◌≡◌, ◌+◌, ◌≤◌, ◌++◌, length, take, drop, IfOk};
ghost use Rattle.demo_draws.specs.Generator.{advanced_by};
ghost use Rattle.demo_draws.specs.DrawnPage.{page_of_draws, drawn_bytes, page_bytes, page_words, database_header};

use crate::draws::Draws;
use ls_base::{Memory, Page};
use std::alloc::Global;

/// The length of a page in bytes.
pub const PAGE_BYTES: usize = 4096;

/// How many numbers are drawn for a page, of eight bytes each.
const PAGE_WORDS: usize = PAGE_BYTES / 8;

/// The length of a database header in bytes.
const HEADER_BYTES: usize = 100;

/// What the header of the database begins with: the header string, the page size 4096, and the write version and the
/// read version of WAL mode. Zeros follow.
const HEADER_FRONT: [u8; 20] = *b"SQLite format 3\0\x10\0\x02\x02";

impl Draws {
    /// Fills the slice, of `PAGE_BYTES` bytes, with a drawn page: 512 numbers of the generator, each as eight bytes,
    /// the highest first. Page 1 begins with the header of a database in their place.
    pub fn fill_page(&mut self, number: u32, into: &mut [u8])
        requires sized { length into.old ≡ page_bytes }
        ensures page { into.new ≡ page_of_draws self.old number }
        ensures state { self.new ≡ advanced_by page_words self.old }
    {
        self.fill(into);
        if number == 1 {
            put_header(into);
        }
    }

    /// Fills the slice with numbers of the generator.
    fn fill(&mut self, into: &mut [u8])
        requires sized { length into.old ≡ page_bytes }
        ensures bytes { into.new ≡ drawn_bytes self.old page_words }
        ensures state { self.new ≡ advanced_by page_words self.old }
    {
        for place in 0..PAGE_WORDS {
            let number = self.next();
            put(into, 8 * place, &number.to_be_bytes());
        }
    }

    /// A drawn page of this number. `Memory` for want of it.
    pub(crate) fn page(&mut self, alloc: Global, number: u32) -> Result<Page, Memory>
        ensures page { IfOk result (λ page. page ≡ page_of_draws self.old number) }
        ensures state { self.new ≡ advanced_by page_words self.old }
    {
        let mut bytes = [0; PAGE_BYTES];
        self.fill_page(number, &mut bytes);
        Page::copied(alloc, &bytes)
    }
}

/// Puts the header of the database over the first bytes.
fn put_header(into: &mut [u8])
    requires sized { length into.old ≡ page_bytes }
    ensures { into.new ≡ database_header ++ drop 100 into.old }
{
    let mut header = [0; HEADER_BYTES];
    put(&mut header, 0, &HEADER_FRONT);
    put(into, 0, &header);
}

/// Puts the bytes from the offset `at` on.
fn put(into: &mut [u8], at: usize, bytes: &[u8])
    requires room { at + length bytes.now ≤ length into.old }
    ensures { into.new ≡ take at into.old ++ bytes.now ++ drop (at + length bytes.now) into.old }
{
    into[at..at + bytes.len()].copy_from_slice(bytes);
}
