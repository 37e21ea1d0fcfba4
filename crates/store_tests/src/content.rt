//! Names, and what a store has under one.

use crash_disk::{Disk, MemDisk};
use replica_store::{FileName, get, read_name, write_name};
use std::alloc::{AllocError, Global};
use std::test::Fail;

/// The name of the file that the tests put.
pub const PATH: &str = "ltx/0/0000000000000001-0000000000000001.ltx";
/// The temporary name of that file.
pub const DRAFT: &str = "ltx/0/0000000000000001-0000000000000001.ltx.tmp";

/// The path of the file of the whole database as of transaction 1.
pub const WHOLE_PATH: &str = "ltx/9/0000000000000001-0000000000000001.ltx";

/// That file: two pages of 512 bytes, at 2023-11-14T22:13:20Z, at a place at rest. Its 1158 bytes end with its sum, as
/// a program in another language computed it.
pub fn whole_file(alloc: Global) -> Result<Vec<u8>, AllocError> {
    let mut file = Vec::from_slice(alloc, b"LTX1\0\0\0\x02\0\0\x02\0\0\0\0\x02")?;
    file.extend_from_slice(b"\0\0\0\0\0\0\0\x01\0\0\0\0\0\0\0\x01")?;
    file.extend_from_slice(b"\0\0\x01\x8b\xcf\xe5\x68\0")?;
    file.extend_from_slice(&[0; 40])?;
    file.extend_from_slice(b"\x80\0\0\0\0\0\0\0\0\0\0\0\0\0\0\0\0\0\0\0")?;
    file.extend_from_slice(b"\0\0\0\x01\0\0SQLite format 3\0\x02\0\x02\x02")?;
    file.extend_from_slice(&[0; 80])?;
    file.extend_from_slice(&[0x11; 412])?;
    file.extend_from_slice(b"\0\0\0\x02\0\0")?;
    file.extend_from_slice(&[0x22; 512])?;
    file.extend_from_slice(&[0; 14])?;
    file.extend_from_slice(&0xf856_1898_5aa5_0591u64.to_be_bytes())?;
    Ok(file)
}

/// The name that the text writes.
pub fn name_of(text: &str) -> Result<FileName, Fail> {
    let name = read_name(text).ok_or("no name")?;
    Ok(name)
}

/// Whether the file of the name has this text, or is absent where it is to be.
pub fn reads(
    alloc: Global,
    store: &mut MemDisk,
    name: &FileName,
    wanted: Option<&str>,
) -> Result<bool, Fail> {
    has_bytes(alloc, store, name, wanted.map(|text| text.as_bytes()))
}

/// The same of bytes.
pub fn has_bytes(
    alloc: Global,
    store: &mut MemDisk,
    name: &FileName,
    wanted: Option<&[u8]>,
) -> Result<bool, Fail> {
    let size = store.size(write_name(name).as_str())?;
    let bytes = get(alloc, store, name)?;
    Ok(size.is_some() == wanted.is_some() && bytes.as_slice() == wanted.unwrap_or(b""))
}
