//! The files of a replica that rounds leave.

use crate::content::{push_page, push_words};
use crash_disk::MemDisk;
use replica_store::{get, list, read_name};
use std::alloc::{AllocError, Global};
use std::process::Abort;
use std::test::Fail;

/// A file: its path, the numbers of its header, its pages with the bytes that they are filled with, and its sum, as a
/// program in another language computed it.
#[derive(Clone, Copy)]
pub struct File {
    pub path: &'static str,
    pub header: [u64; 11],
    pub pages: &'static [(u32, u8)],
    pub sum: u64,
}

/// The bytes of the file.
fn bytes_of(alloc: Global, file: &File) -> Result<Vec<u8>, AllocError> {
    let mut bytes = Vec::new(alloc);
    push_words(&mut bytes, &file.header)?;
    bytes.extend_from_slice(&[0; 12])?;
    for (number, fill) in file.pages {
        bytes.extend_from_slice(&number.to_be_bytes())?;
        bytes.extend_from_slice(&[0; 2])?;
        push_page(&mut bytes, *number, *fill)?;
    }
    bytes.extend_from_slice(&[0; 14])?;
    push_words(&mut bytes, &[file.sum])?;
    Ok(bytes)
}

/// Puts the file into the replica.
pub fn put_file(alloc: Global, store: &mut MemDisk, file: &File) -> Result<(), Fail> {
    let bytes = bytes_of(alloc, file)?;
    store.put_file(file.path, &bytes)?;
    Ok(())
}

/// The replica has the file, byte by byte.
pub fn has_file(
    rt: &impl Abort,
    alloc: Global,
    store: &mut MemDisk,
    file: &File,
) -> Result<(), Fail> {
    let name = read_name(file.path).ok_or("a name")?;
    let found = get(alloc, store, &name)?;
    let bytes = bytes_of(alloc, file)?;
    assert!(rt; found.as_slice() == bytes.as_slice(), "{}", file.path);
    Ok(())
}

/// The replica has so many files.
pub fn has_count(
    rt: &impl Abort,
    alloc: Global,
    store: &mut MemDisk,
    count: usize,
) -> Result<(), Fail> {
    let names = list(alloc, store)?;
    assert_eq!(rt; names.as_slice().len(), count);
    Ok(())
}
