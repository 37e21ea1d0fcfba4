//! Pieces of bytes, copied into a caller's buffer.

ghost use Rattle.std.specs.Prelude.{◌≡◌, ◌≤◌, ◌-◌, ◌++◌, min, length, take, drop, replicate};

/// The bytes from the offset on.
pub(crate) fn rest_from(bytes: &[u8], at: u64) -> &[u8]
    ensures { result.now ≡ drop at bytes.now }
{
    let at = (at as usize).min(bytes.len());
    &bytes[at..]
}

/// Copies as many bytes as there is room for, and answers how many.
pub(crate) fn copy_front(from: &[u8], into: &mut [u8]) -> usize
    ensures count { result ≡ min (length from.now) (length into.old) }
    ensures front { into.new ≡ take (length into.old) from.now ++ drop (length from.now) into.old }
{
    let count = from.len().min(into.len());
    into[..count].copy_from_slice(&from[..count]);
    count
}

/// Fills the buffer with the bytes and, where they are too few, zeros.
pub(crate) fn fill_page(from: &[u8], into: &mut [u8])
    ensures { into.new ≡ take (length into.old) (from.now ++ replicate (length into.old) 0) }
{
    into.fill(0);
    copy_front(from, into);
}
