//! Writing a file with an index page by page.

ghost use Rattle.std.specs.Prelude.{◌≡◌, ◌<◌, ◌^◌, ◌++◌, true, length, OnOk, OnErr, IfOk};
ghost use Rattle.std.specs.FinMap as map;
ghost use Rattle.ltx_format.specs.LtxFormat.{IsHeader, IsStored, header_bytes, index_bytes};
ghost use Rattle.ltx_format.specs.Writing.{HasIndexed, GainsPage, IsLastBlock, EndsFile, block_front};

use crate::draft::Draft;
use crate::header::LtxHeader;
use ls_base::{Bytes, Memory, PageList};
use std::alloc::Global;
use std::marker::Model;

/// The length of the number and the flags that end the blocks, in bytes.
const END_BYTES: usize = 6;

/// A file with an index that is being written. The caller puts what each call writes, and each page behind
/// its own call's bytes, one after the other.
#[derive(Debug, Drop)]
pub struct IndexWriter {
    alloc: Global,
    draft: Draft,
    numbers: PageList,
}

impl Model for IndexWriter {
    ghost use Rattle.std.specs.Prelude.{◌≡◌, ◌≤◌, true, length};
    ghost use Rattle.ltx_format.specs.Writing.{Indexed, AreUpTo};

    ghost Value = { Indexed };

    ghost view = { λ w. record {
      written = record { header = w.draft.header; last = w.draft.last; check = w.draft.check };
      numbers = w.numbers;
    } };

    ghost invariant = { λ w. (w.draft.header.index ≡ true) × (length w.numbers ≤ w.draft.last)
        × AreUpTo w.draft.last w.numbers };
}

impl IndexWriter {
    /// Begins the file, and writes its first 100 bytes: those of the header, which says that there is an index.
    /// Takes no memory.
    pub fn begin(alloc: Global, header: &LtxHeader, into: &mut [u8; 100]) -> IndexWriter
        requires header { IsHeader header.now }
        requires index { header.now.index ≡ true }
        ensures bytes { into.new ≡ header_bytes header.now }
        ensures written { HasIndexed result map.empty }
        ensures header { result.written.header ≡ header.now }
        ensures last { result.written.last ≡ 0 }
    {
        let draft = Draft::begin(header, into);
        IndexWriter {
            alloc,
            draft,
            numbers: PageList::new(alloc),
        }
    }

    /// Takes the next page, and writes what stands before it in its block: 6 bytes. Its number is above that of
    /// the page before, at most the commit, and not the lock page's. `Memory` for want of it, and all is then as
    /// it was.
    pub fn page(&mut self, number: u32, page: &[u8], into: &mut [u8; 6]) -> Result<(), Memory>
        requires rises { self.old.written.last < number }
        requires stored { IsStored self.old.written.header number }
        requires sized { length page.now ≡ self.old.written.header.size }
        ensures bytes { OnOk result (into.new ≡ block_front number) }
        ensures block { OnOk result (IsLastBlock (HasIndexed self.old) number page.now into.new) }
        ensures written { OnOk result (GainsPage (HasIndexed self.old) (HasIndexed self.new) number page.now) }
        ensures header { self.new.written.header ≡ self.old.written.header }
        ensures last { OnOk result (self.new.written.last ≡ number) }
        ensures err { OnErr result ((self.new ≡ self.old) × (into.new ≡ into.old)) }
    {
        self.numbers.push(number)?;
        self.draft.page(number, page, into);
        Ok(())
    }
    /// The end of the file behind its blocks: their end, the index, and the trailer. A file that begins at
    /// transaction 1 was given each page up to the commit but the lock page. `Memory` for want of it.
    pub fn finish(self) -> Result<IndexTail, Memory>
        ensures file { IfOk result (λ tail. EndsFile (HasIndexed self) self.written.header tail) }
    {
        let mut bytes = Bytes::new(self.alloc);
        bytes.extend(&[0; END_BYTES])?;
        put_numbers(&mut bytes, &self.numbers)?;
        bytes.extend(&[0; 8])?;
        let sum = self.draft.sum_before(bytes.as_slice());
        bytes.extend(&sum.to_be_bytes())?;
        Ok(IndexTail { bytes })
    }
}

/// Puts the index of these numbers.
fn put_numbers(out: &mut Bytes, numbers: &PageList) -> Result<(), Memory>
    requires { length numbers.now < 2 ^ 32 }
    ensures { OnOk result (out.new ≡ out.old ++ index_bytes numbers.now) }
{
    let count = numbers.len() as u32;
    for at in 0..count {
        if let Some(number) = numbers.get(u64::from(at)) {
            out.extend(&number.to_be_bytes())?;
        }
    }
    out.extend(&count.to_be_bytes())
}

/// The end of a file with an index, behind its blocks.
#[derive(Debug, Drop)]
pub struct IndexTail {
    bytes: Bytes,
}

impl Model for IndexTail {
    ghost use Rattle.std.specs.Prelude.{ℕ, List};

    ghost Value = { List ℕ };

    ghost view = { λ tail. tail.bytes };
}

impl IndexTail {
    /// The bytes, lent.
    pub fn as_slice(&self) -> &[u8]
        ensures { result.now ≡ self.now }
    {
        self.bytes.as_slice()
    }
}
