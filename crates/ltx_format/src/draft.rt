//! A file that is being written, up to its last page.

ghost use Rattle.std.specs.Prelude.{◌≡◌, ℕ, List, ◌++◌};
ghost use Rattle.ls_sums.specs.Crc64.{all_ones, after_bytes, IsBehind};
ghost use Rattle.ltx_format.specs.LtxFormat as spec;
ghost use Rattle.ltx_format.specs.LtxFormat.{header_bytes, page_block};
ghost use Rattle.ltx_format.specs.Writing.{block_front};

use crate::header::LtxHeader;
use crate::trailer::TOP_BIT;
use crate::writing_header::{put, put_u32, write_header};
use ls_sums::Crc64;

/// What was written so far.
#[derive(Clone, Copy, Debug)]
pub(crate) struct Draft {
    pub(crate) header: LtxHeader,
    /// The number of the last page, 0 before the first.
    pub(crate) last: u32,
    /// The check of all bytes so far.
    pub(crate) check: Crc64,
}

impl Draft {
    /// Writes the header's bytes, and no page yet.
    pub(crate) fn begin(header: &LtxHeader, into: &mut [u8; 100]) -> Draft
        ensures bytes { into.new ≡ header_bytes header.now }
        ensures header { result.header ≡ header.now }
        ensures last { result.last ≡ 0 }
        ensures check { IsBehind (header_bytes header.now) result.check }
    {
        write_header(header, into);
        let mut check = Crc64::new();
        check.over(into);
        Draft {
            header: *header,
            last: 0,
            check,
        }
    }

    /// Takes the page in, and writes what stands before it in its block.
    pub(crate) fn page(&mut self, number: u32, page: &[u8], into: &mut [u8; 6])
        ensures front { into.new ≡ block_front number }
        ensures header { self.new.header ≡ self.old.header }
        ensures last { self.new.last ≡ number }
        ensures check { (before : List ℕ) → IsBehind before self.old.check
            → IsBehind (before ++ page_block (number, page.now)) self.new.check }
    {
        put_u32(into, 0, number);
        put(into, 4, &[0; 2]);
        self.check.over(into);
        self.check.over(page);
        self.last = number;
    }

    /// The sum of the file, where these bytes stand between its blocks and its sum.
    pub(crate) fn sum_before(&self, end: &[u8]) -> u64
        ensures { (before : List ℕ) → IsBehind before self.now.check → result ≡ spec.file_sum (before ++ end.now) }
    {
        let mut check = self.check;
        check.over(end);
        check.finish() | TOP_BIT
    }
}
