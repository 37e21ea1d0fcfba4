//! Which numbers the pages of a file may have.

ghost use Rattle.std.specs.Prelude.{◌≡◌};
ghost use Rattle.ltx_format.specs.FirstFault as spec;
ghost use Rattle.ltx_reader.specs.ReaderIndex as index;

use ltx_format::LtxHeader;

/// Whether the number is above the last one, at most the commit, and isn't the lock page.
pub(crate) fn is_next(header: &LtxHeader, last: u32, number: u32) -> bool
    ensures { result ≡ spec.is_next header.now.size header.now.commit last number }
{
    number > last && number <= header.commit && number != header.size.lock_page()
}

/// Whether so many pages are all: a file from transaction 1 on has every page but the lock page.
pub(crate) fn has_all(header: &LtxHeader, count: u32) -> bool
    ensures { result ≡ index.has_all header.now count }
{
    header.min.number() != 1 || count == header.stored_pages()
}
