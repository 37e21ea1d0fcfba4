//! The sum of a page.

ghost use Rattle.std.specs.Prelude.{◌≡◌};
ghost use Rattle.ls_sums.specs.PageSum as spec;

use crate::crc64::Crc64;

/// The bit that is set in each sum of a page.
const TOP_BIT: u64 = 1 << 63;

/// The sum of a page with its number: the check of the number, as four bytes with the highest first, and
/// then of the page, with the top bit set.
pub fn page_sum(number: u32, page: &[u8]) -> u64
    ensures { result ≡ spec.page_sum number page.now }
{
    let mut check = Crc64::new();
    check.over(&number.to_be_bytes());
    check.over(page);
    check.finish() | TOP_BIT
}
