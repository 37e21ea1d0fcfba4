//! Numbers of four bytes in the log, the highest byte first.

ghost use Rattle.std.specs.Prelude.{◌≡◌, ◌+◌, ◌^◌, ◌<◌, ◌≤◌, ◌++◌, length, take};
ghost use Rattle.byteorder.specs.Endian.{big_bytes};
ghost use Rattle.wal_frames.specs.WalFormat as spec;

use byteorder::{BigEndian, ByteOrder};

/// The number in the four bytes from `at` on.
#[tactic(auto, unfolding(crate::specs::WalFormat::field_at))]
pub(crate) fn field_at(bytes: &[u8], at: usize) -> u32
    requires { at + 4 ≤ length bytes.now }
    ensures { result ≡ spec.field_at bytes.now at }
{
    BigEndian::read_u32(&bytes[at..])
}

/// Writes the number into the four bytes from `at` on. Those before them stay.
pub(crate) fn put_number(into: &mut [u8], at: usize, number: u32)
    requires { at + 4 ≤ length into.old }
    ensures bytes { take (at + 4) into.new ≡ take at into.old ++ big_bytes 4 number }
    ensures fits { number < 2 ^ 32 }
{
    BigEndian::write_u32(&mut into[at..at + 4], number);
}
