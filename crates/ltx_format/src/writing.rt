//! Writing a file.

ghost use Rattle.std.specs.Prelude.{◌≡◌, ◌++◌, length, IfOk, OnOk};
ghost use Rattle.std.specs.FinMap as map;
ghost use Rattle.ltx_format.specs.LtxFormat.{IsHeader, ArePages, IsLtxFile, change_of, page_block, page_blocks};
ghost use Rattle.ltx_format.specs.LtxFormat.{index_bytes};

use crate::file::LtxFile;
use crate::header::LtxHeader;
use crate::heading::HEADER_BYTES;
use crate::trailer::file_sum;
use crate::writing_header::write_header;
use ls_base::{Bytes, ChangePages, Memory, Page};
use std::alloc::Global;

/// The length of the number and the flags that end the blocks, in bytes.
const END_BYTES: usize = 6;

/// The bytes of the file. `Memory` for want of it.
pub fn encode(alloc: Global, file: &LtxFile) -> Result<Bytes, Memory>
    requires header { IsHeader file.now.header }
    requires pages { ArePages file.now.header file.now.pages }
    ensures spelled { IfOk result (λ bytes. IsLtxFile bytes file.now.header (change_of file.now)) }
{
    let mut header = [0; HEADER_BYTES];
    write_header(&file.header, &mut header);
    let mut out = Bytes::new(alloc);
    out.extend(&header)?;
    let count = put_pages(&mut out, &file.header, &file.pages)?;
    out.extend(&[0; END_BYTES])?;
    if file.header.index {
        put_index(&mut out, &file.pages, count)?;
    }
    out.extend(&[0; 8])?;
    let sum = file_sum(out.as_slice());
    out.extend(&sum.to_be_bytes())?;
    Ok(out)
}

/// Puts the blocks of the pages, by rising number, and answers how many they are.
fn put_pages(out: &mut Bytes, header: &LtxHeader, pages: &ChangePages) -> Result<u32, Memory>
    requires { ArePages header.now pages.now }
    ensures put { OnOk result (out.new ≡ out.old ++ page_blocks pages.now) }
    ensures count { IfOk result (λ count. count ≡ length (map.entries pages.now)) }
{
    for at in 0..header.commit {
        let Some(number) = pages.number_at(u64::from(at)) else {
            return Ok(at);
        };
        if let Some(page) = pages.get(number) {
            put_block(out, number, page)?;
        }
    }
    Ok(header.commit)
}

/// Puts the index of this many pages: their numbers by rising number, and how many they are.
fn put_index(out: &mut Bytes, pages: &ChangePages, count: u32) -> Result<(), Memory>
    requires { count ≡ length (map.entries pages.now) }
    ensures { OnOk result (out.new ≡ out.old ++ index_bytes (map.keys pages.now)) }
{
    for at in 0..count {
        if let Some(number) = pages.number_at(u64::from(at)) {
            out.extend(&number.to_be_bytes())?;
        }
    }
    out.extend(&count.to_be_bytes())
}

/// Puts the block of one page.
fn put_block(out: &mut Bytes, number: u32, page: &Page) -> Result<(), Memory>
    ensures { OnOk result (out.new ≡ out.old ++ page_block (number, page.now)) }
{
    out.extend(&number.to_be_bytes())?;
    out.extend(&[0; 2])?;
    out.extend(page.bytes())
}
