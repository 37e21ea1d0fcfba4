//! Bytes of real files, read and written until all of them have gone through the system.

ghost use Rattle.std.specs.Prelude.{◌≡◌, ◌↔◌, ◌<◌, ◌≤◌, ◌^◌, Some, length, IfOk, IsErr};

use std::fs::File;
use std::io::{self, ErrorKind};
use std::os::unix::fs::FileExt;

/// The length in bytes that no file may have, and the offset where none goes on.
pub const FILE_LIMIT: u64 = 1 << 63;

/// The length in bytes, below the limit. A greater one is an error.
pub fn within_limit(size: u64) -> io::Result<Option<u64>>
    ensures value { IfOk result (λ found. found ≡ Some size) }
    ensures too_long { IsErr result ↔ (2 ^ 63 ≤ size) }
{
    if size < FILE_LIMIT {
        Ok(Some(size))
    } else {
        Err(ErrorKind::FileTooLarge.into())
    }
}

/// The length of an open file in bytes.
pub fn size_of(file: &File) -> io::Result<u64>
    ensures bound { IfOk result (λ n. n < 2 ^ 63) }
{
    let size = file.metadata()?.len();
    within_limit(size)?;
    Ok(size)
}

/// Absence is as good as success.
pub fn unless_absent(answer: io::Result<()>) -> io::Result<()> {
    match answer {
        Err(error) if error.kind() == ErrorKind::NotFound => Ok(()),
        answer => answer,
    }
}

/// Reads from an offset on until `into` is full or the file ends, and answers how many bytes that
/// gave.
pub fn fill(file: &File, at: u64, into: &mut [u8]) -> io::Result<usize>
    ensures bound { IfOk result (λ n. n ≤ length into.old) }
{
    let mut count = 0;
    for _ in 0..u64::MAX {
        let offset = at.saturating_add(count as u64);
        if count == into.len() || offset >= FILE_LIMIT {
            return Ok(count);
        }
        match file.read_at(&mut into[count..], offset) {
            Ok(0) => return Ok(count),
            Ok(more) => count += more,
            Err(error) if error.kind() == ErrorKind::Interrupted => {}
            Err(error) => return Err(error),
        }
    }
    Err(ErrorKind::TimedOut.into())
}

/// Writes all the bytes from an offset on, whatever the file's position is.
pub fn write_whole(file: &File, at: u64, bytes: &[u8]) -> io::Result<()> {
    let mut offset = at;
    let mut rest = bytes;
    for _ in 0..u64::MAX {
        if rest.is_empty() {
            return Ok(());
        }
        match file.write_at(rest, offset) {
            Ok(0) => return Err(ErrorKind::WriteZero.into()),
            Ok(count) => {
                rest = &rest[count..];
                offset = offset.saturating_add(count as u64);
            }
            Err(error) if error.kind() == ErrorKind::Interrupted => {}
            Err(error) => return Err(error),
        }
    }
    Err(ErrorKind::TimedOut.into())
}
