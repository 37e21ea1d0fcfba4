//! The bytes of a file, changed in place.

ghost use Rattle.std.specs.Prelude.{◌≡◌, ◌<◌, ◌+◌, ◌^◌, ◌↔◌, length, IsTrue, OnOk, OnErr};
ghost use Rattle.crash_disk.specs.Files.{with_bytes_at, with_length};

use ls_base::{Bytes, Memory};

/// The length in bytes that every file stays below.
pub const LENGTH_LIMIT: usize = 1 << 63;

/// Whether a file of this length stays below the limit with more bytes behind it.
pub fn fits(length: usize, more: usize) -> bool
    ensures { IsTrue result ↔ (length + more < 2 ^ 63) }
{
    length < LENGTH_LIMIT && more < LENGTH_LIMIT - length
}

/// Cuts the bytes to the length, or lets them grow to it by zeros. `Memory` for want of it, and for a length
/// of 2^63 or more; the bytes are then as they were.
pub fn set_length(file: &mut Bytes, size: u64) -> Result<(), Memory>
    ensures ok { OnOk result (file.new ≡ with_length size file.old) }
    ensures short { OnOk result (size < 2 ^ 63) }
    ensures err { OnErr result (file.new ≡ file.old) }
{
    let size = size as usize;
    if !fits(size, 0) {
        return Err(Memory);
    }
    file.resize(size)?;
    Ok(())
}

/// Writes the bytes over those from the offset on. Zeros fill a gap. `Memory` for want of it, and where the
/// bytes would end at 2^63 or later; those of the file are then as they were.
pub fn write_over(file: &mut Bytes, at: u64, bytes: &[u8]) -> Result<(), Memory>
    ensures ok { OnOk result (file.new ≡ with_bytes_at at bytes.now file.old) }
    ensures short { OnOk result (at + length bytes.now < 2 ^ 63) }
    ensures err { OnErr result (file.new ≡ file.old) }
{
    let at = at as usize;
    if !fits(at, bytes.len()) {
        return Err(Memory);
    }
    let end = at + bytes.len();
    if file.as_slice().len() < end {
        file.resize(end)?;
    }
    file.overwrite(at, bytes);
    Ok(())
}
