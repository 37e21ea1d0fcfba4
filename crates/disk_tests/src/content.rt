//! What a disk has under a name.

use crash_disk::{Disk, DiskFault, MemDisk};

/// Whether the name has this text, of at most eight bytes, or is absent where it is to be.
pub fn reads(disk: &mut MemDisk, name: &str, wanted: Option<&str>) -> Result<bool, DiskFault> {
    let size = disk.size(name)?;
    let mut into = [0; 9];
    let count = disk.read_at(name, 0, &mut into)?;
    let text = wanted.unwrap_or("");
    Ok(size.is_some() == wanted.is_some() && &into[..count] == text.as_bytes())
}

/// Whether the bytes are those of the pattern, in which '?' stands for any byte.
fn fits(bytes: &[u8], pattern: &[u8]) -> bool {
    if bytes.len() != pattern.len() {
        return false;
    }
    for i in 0..bytes.len() {
        if pattern[i] != b'?' && pattern[i] != bytes[i] {
            return false;
        }
    }
    true
}

/// Whether the name has one of these, in which '?' stands for any byte.
pub fn reads_any(
    disk: &mut MemDisk,
    name: &str,
    allowed: &[Option<&str>],
) -> Result<bool, DiskFault> {
    let there = disk.size(name)?.is_some();
    let mut into = [0; 9];
    let count = disk.read_at(name, 0, &mut into)?;
    for wanted in allowed {
        if there == wanted.is_some() && fits(&into[..count], wanted.unwrap_or("").as_bytes()) {
            return Ok(true);
        }
    }
    Ok(false)
}
