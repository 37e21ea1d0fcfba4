//! Writing a file page by page, without memory.

ghost use Rattle.std.specs.Prelude.{◌≡◌, ◌<◌, false, length};
ghost use Rattle.std.specs.FinMap as map;
ghost use Rattle.ltx_format.specs.LtxFormat.{IsHeader, IsStored, header_bytes};
ghost use Rattle.ltx_format.specs.Writing.{HasWritten, GainsPage, IsLastBlock, EndsFile, block_front};

use crate::draft::Draft;
use crate::header::LtxHeader;
use crate::writing_header::put_u64;
use std::marker::Model;

/// The length of what stands between the blocks and the file's own sum, in bytes: the number and flags that
/// end the blocks, and the post-apply checksum.
const END_BYTES: usize = 14;

/// A file without an index that is being written. The caller puts what each call writes, and each page behind
/// its own call's bytes, one after the other.
#[derive(Debug, Drop)]
pub struct LtxWriter {
    draft: Draft,
}

impl Model for LtxWriter {
    ghost use Rattle.std.specs.Prelude.{◌≡◌, false};
    ghost use Rattle.ltx_format.specs.Writing.{Written};

    ghost Value = { Written };

    ghost view = { λ w. record { header = w.draft.header; last = w.draft.last; check = w.draft.check } };

    ghost invariant = { λ w. w.draft.header.index ≡ false };
}

impl LtxWriter {
    /// Begins the file, and writes its first 100 bytes: those of the header, which says that there is no
    /// index. Takes no memory.
    pub fn begin(header: &LtxHeader, into: &mut [u8; 100]) -> LtxWriter
        requires header { IsHeader header.now }
        requires index { header.now.index ≡ false }
        ensures bytes { into.new ≡ header_bytes header.now }
        ensures written { HasWritten result map.empty }
        ensures header { result.header ≡ header.now }
        ensures last { result.last ≡ 0 }
    {
        let draft = Draft::begin(header, into);
        LtxWriter { draft }
    }

    /// Takes the next page, and writes what stands before it in its block: 6 bytes. Its number is above that of
    /// the page before, at most the commit, and not the lock page's. Takes no memory.
    pub fn page(&mut self, number: u32, page: &[u8], into: &mut [u8; 6])
        requires rises { self.old.last < number }
        requires stored { IsStored self.old.header number }
        requires sized { length page.now ≡ self.old.header.size }
        ensures bytes { into.new ≡ block_front number }
        ensures block { IsLastBlock (HasWritten self.old) number page.now into.new }
        ensures written { GainsPage (HasWritten self.old) (HasWritten self.new) number page.now }
        ensures header { self.new.header ≡ self.old.header }
        ensures last { self.new.last ≡ number }
    {
        self.draft.page(number, page, into);
    }

    /// The last 22 bytes of the file: the end of its blocks, and its trailer. A file that begins at
    /// transaction 1 was given each page up to the commit but the lock page. Takes no memory.
    pub fn finish(self) -> [u8; 22]
        ensures file { EndsFile (HasWritten self) self.header result }
    {
        let mut end = [0; 22];
        let sum = self.draft.sum_before(&end[..END_BYTES]);
        put_u64(&mut end, END_BYTES, sum);
        end
    }
}
