//! Writing the header of a file.

ghost use Rattle.std.specs.Prelude.{◌≡◌, ◌+◌, ◌≤◌, ◌++◌, length, take};
ghost use Rattle.byteorder.specs.Endian.{big_bytes};
ghost use Rattle.ltx_format.specs.LtxFormat.{header_bytes, log_fields, sum_fields};

use crate::header::LtxHeader;
use crate::heading::{MAGIC, flags_of};
use crate::place::FIRST_FRAME;
use ls_base::Place;

/// Writes the header's bytes.
#[tactic(auto, unfolding(crate::specs::LtxFormat::header_bytes))]
pub(crate) fn write_header(header: &LtxHeader, into: &mut [u8; 100])
    ensures { into.new ≡ header_bytes header.now }
{
    put_u32(into, 0, MAGIC);
    put_u32(into, 4, flags_of(header.index));
    put_u32(into, 8, header.size.get());
    put_u32(into, 12, header.commit);
    put_u64(into, 16, header.min.number());
    put_u64(into, 24, header.max.number());
    put_u64(into, 32, header.moment);
    put(into, 40, &[0; 8]);
    put_log(into, header.place);
    put(into, 72, &[0; 8]);
    put_sums(into, header.place);
    put(into, 88, &[0; 12]);
}

/// Puts the part of the log that the place stands behind.
fn put_log(into: &mut [u8], place: Place)
    requires { 72 ≤ length into.old }
    ensures { take 72 into.new ≡ take 48 into.old ++ log_fields place }
{
    let Place::Wal {
        salt1,
        salt2,
        end,
        ..
    } = place
    else {
        return put(into, 48, &[0; 24]);
    };
    put_u64(into, 48, FIRST_FRAME);
    put_u64(into, 56, end.saturating_sub(FIRST_FRAME));
    put_u32(into, 64, salt1);
    put_u32(into, 68, salt2);
}

/// Puts the sums of the place.
fn put_sums(into: &mut [u8], place: Place)
    requires { 88 ≤ length into.old }
    ensures { take 88 into.new ≡ take 80 into.old ++ sum_fields place }
{
    match place {
        Place::Wal { s0, s1, .. } => {
            put_u32(into, 80, s0);
            put_u32(into, 84, s1);
        }
        Place::Rest { sum } => put_u64(into, 80, sum),
    }
}

/// Puts the number into the four bytes from the offset `at` on. Those before it stay.
pub(crate) fn put_u32(into: &mut [u8], at: usize, number: u32)
    requires { at + 4 ≤ length into.old }
    ensures { take (at + 4) into.new ≡ take at into.old ++ big_bytes 4 number }
{
    put(into, at, &number.to_be_bytes());
}

/// Puts the number into the eight bytes from the offset `at` on. Those before it stay.
pub(crate) fn put_u64(into: &mut [u8], at: usize, number: u64)
    requires { at + 8 ≤ length into.old }
    ensures { take (at + 8) into.new ≡ take at into.old ++ big_bytes 8 number }
{
    put(into, at, &number.to_be_bytes());
}

/// Puts the bytes from the offset `at` on. Those before it stay.
pub(crate) fn put(into: &mut [u8], at: usize, bytes: &[u8])
    requires { at + length bytes.now ≤ length into.old }
    ensures { take (at + length bytes.now) into.new ≡ take at into.old ++ bytes.now }
{
    into[at..at + bytes.len()].copy_from_slice(bytes);
}
