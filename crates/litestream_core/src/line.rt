//! The line that a restore prints.

ghost use Rattle.std.specs.Prelude.{◌≡◌};
ghost use Rattle.litestream_core.specs.Line.{restored_text};

use arrayvec::ArrayVec;
use itoa::Buffer;
use ls_base::Txid;

/// Room for the longest line: 9 and 16 and 7 bytes, 10 digits and a line feed.
pub const LINE_BYTES: usize = 43;

/// `restored T pages N` and a line feed, T in 16 digits. Takes no memory.
pub fn restored_line(txid: Txid, pages: u32) -> ArrayVec<u8, LINE_BYTES>
    ensures { result.items ≡ restored_text txid pages }
{
    let mut line = ArrayVec::new();
    let mut number = Buffer::new();
    line.try_extend_from_slice(b"restored ").unwrap();
    line.try_extend_from_slice(&txid.digits()).unwrap();
    line.try_extend_from_slice(b" pages ").unwrap();
    line.try_extend_from_slice(number.format(pages).as_bytes())
        .unwrap();
    line.try_extend_from_slice(b"\n").unwrap();
    line
}
