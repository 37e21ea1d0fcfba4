//! The line of a file.

ghost use Rattle.std.specs.Prelude.{◌≡◌, ◌≤◌, length};
ghost use Rattle.replica_listing.specs.Listing.{file_line};

use crate::moment::moment_text;
use arrayvec::ArrayVec;
use itoa::Buffer;
use replica_store::Dated;

/// Room for the longest line of a file, in bytes: 3, twice 16, 20 and 24 with a byte behind each.
pub const LINE_BYTES: usize = 84;

/// The line of a file of this size in bytes: level, first and last transaction, size and moment. Takes no memory.
pub fn file_line(dated: &Dated, size: u64) -> ArrayVec<u8, LINE_BYTES>
    ensures value { result.items ≡ file_line dated.now size }
    ensures short { length result.items ≤ 84 }
{
    let mut line = ArrayVec::new();
    let mut number = Buffer::new();
    line.try_extend_from_slice(number.format(dated.name.level).as_bytes())
        .unwrap();
    line.try_extend_from_slice(b" ").unwrap();
    line.try_extend_from_slice(&dated.name.min.digits())
        .unwrap();
    line.try_extend_from_slice(b" ").unwrap();
    line.try_extend_from_slice(&dated.name.max.digits())
        .unwrap();
    line.try_extend_from_slice(b" ").unwrap();
    line.try_extend_from_slice(number.format(size).as_bytes())
        .unwrap();
    line.try_extend_from_slice(b" ").unwrap();
    line.try_extend_from_slice(moment_text(dated.moment).as_slice())
        .unwrap();
    line.try_extend_from_slice(b"\n").unwrap();
    line
}
