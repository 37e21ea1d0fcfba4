//! Reading the database header.

ghost use Rattle.std.specs.Prelude.{◌≡◌, ◌≤◌, ◌↔◌, length, IsTrue, IfErr, OkIff};
ghost use Rattle.std.specs.Option.{SomeIff};
ghost use Rattle.ls_base.specs.PageSize.{IsPageSize};
ghost use Rattle.db_page.specs.DatabaseHeader as spec;
ghost use Rattle.db_page.specs.DatabaseHeader.{HasHeaderString, IsWalDatabase, IsFirstFault};

use crate::fault::HeaderFault;
use ls_base::PageSize;

/// The length of a database header in bytes.
const HEADER_BYTES: usize = 100;
/// What each database file begins with.
const HEADER_STRING: [u8; 16] = *b"SQLite format 3\0";
/// The write version and the read version of a database in WAL mode.
const WAL_VERSION: u8 = 2;

/// The page size of the database in WAL mode whose file begins with these bytes.
///
/// The tests come in the order of the variants of `HeaderFault`, and the first that fails is the answer.
pub fn read_db_header(bytes: &[u8]) -> Result<PageSize, HeaderFault>
    ensures ok { OkIff result (IsWalDatabase bytes.now) (spec.page_size_of (spec.page_size_field bytes.now)) }
    ensures cause { IfErr result (λ fault. IsFirstFault bytes.now fault) }
{
    if bytes.len() < HEADER_BYTES {
        return Err(HeaderFault::Short(bytes.len()));
    }
    if !has_header_string(bytes) {
        return Err(HeaderFault::NotDatabase);
    }
    let field = page_size_field(bytes);
    let Some(size) = page_size_of(field) else {
        return Err(HeaderFault::BadPageSize(field));
    };
    let (write, read) = (bytes[18], bytes[19]);
    if write != WAL_VERSION || read != WAL_VERSION {
        return Err(HeaderFault::NotWalMode { write, read });
    }
    Ok(size)
}

/// Whether the bytes begin with the header string.
fn has_header_string(bytes: &[u8]) -> bool
    ensures { IsTrue result ↔ HasHeaderString bytes.now }
{
    bytes.starts_with(&HEADER_STRING)
}

/// The page size field of a header.
fn page_size_field(header: &[u8]) -> u16
    requires { 18 ≤ length header.now }
    ensures { result ≡ spec.page_size_field header.now }
{
    u16::from_be_bytes([header[16], header[17]])
}

/// The page size that the header's field stands for, if any: 1 stands for 65536.
fn page_size_of(field: u16) -> Option<PageSize>
    ensures { SomeIff result (IsPageSize (spec.page_size_of field)) (spec.page_size_of field) }
{
    if field == 1 {
        return PageSize::from_u32(65536);
    }
    PageSize::from_u32(u32::from(field))
}
