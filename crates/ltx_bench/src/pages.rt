//! Pages, one after the other, as the blocks of an LTX file.

ghost use Rattle.std.specs.Prelude.{◌≡◌, ◌<◌, length, IfOk};
ghost use Rattle.std.specs.Bool.{OnTrue};
ghost use Rattle.ltx_format.specs.LtxFormat.{IsStored};

use ltx_format::{LtxHeader, LtxWriter};
use std::io::{self, ErrorKind};

/// Puts the blocks of the pages behind `blocks`, numbered on from `last`, and answers the number of the last
/// one. A page that isn't whole or can't stand in the file is an error.
pub fn put_pages(
    writer: &mut LtxWriter,
    header: &LtxHeader,
    last: u32,
    pages: &[u8],
    blocks: &mut Vec<u8>,
) -> io::Result<u32>
    requires header { writer.old.header ≡ header.now }
    requires last { writer.old.last ≡ last }
    ensures header { IfOk result (λ last. writer.new.header ≡ header.now) }
    ensures last { IfOk result (λ last. writer.new.last ≡ last) }
{
    let mut number = last;
    for page in pages.chunks(header.size.get() as usize) {
        let next = number.saturating_add(1);
        if !may_come(header, number, next, page) {
            return Err(ErrorKind::InvalidData.into());
        }
        let mut front = [0; 6];
        writer.page(next, page, &mut front);
        blocks.extend_from_slice(&front)?;
        blocks.extend_from_slice(page)?;
        number = next;
    }
    Ok(number)
}

/// Whether the page may come behind that of the number `last`.
fn may_come(header: &LtxHeader, last: u32, number: u32, page: &[u8]) -> bool
    ensures rises { OnTrue result (last < number) }
    ensures stored { OnTrue result (IsStored header.now number) }
    ensures sized { OnTrue result (length page.now ≡ header.now.size) }
{
    last < number
        && number <= header.commit
        && number != header.size.lock_page()
        && page.len() == header.size.get() as usize
}
