//! Two pieces of a replica, and their merge.

use crash_disk::{Disk, MemDisk};
use replica_store::{get, read_name};
use std::alloc::{AllocError, Global};
use std::test::Fail;

/// A file that leaves two pages of 512 bytes and has the second of them alone.
#[derive(Drop)]
pub struct Content {
    pub path: &'static str,
    /// Its first and its last transaction.
    min: u8,
    max: u8,
    /// The last two bytes of its moment.
    moment: [u8; 2],
    /// The byte that fills the page.
    fill: u8,
    index: bool,
    /// The sum of its bytes, as a program in another language computed it.
    sum: u64,
    pub size: u64,
}

/// The piece of transaction 2, at 2023-11-14T22:13:21Z.
pub const SECOND: Content = Content {
    path: "ltx/0/0000000000000002-0000000000000002.ltx",
    min: 2,
    max: 2,
    moment: [0x6b, 0xe8],
    fill: 0x22,
    index: false,
    sum: 0xc5f9_f78e_ae69_6f8c,
    size: 640,
};

/// The piece of transaction 3, a second later.
pub const THIRD: Content = Content {
    path: "ltx/0/0000000000000003-0000000000000003.ltx",
    min: 3,
    max: 3,
    moment: [0x6f, 0xd0],
    fill: 0x33,
    index: false,
    sum: 0xfece_377f_c122_54ff,
    size: 640,
};

/// Their merge. Its index begins at byte 624, and the count of that at byte 628.
pub const MERGED: Content = Content {
    path: "ltx/1/0000000000000002-0000000000000003.ltx",
    min: 2,
    max: 3,
    moment: [0x6f, 0xd0],
    fill: 0x33,
    index: true,
    sum: 0xb8cf_2498_c289_08be,
    size: 648,
};

impl Content {
    /// The bytes of the file. Its place is one at rest, whose sum ends with the last transaction.
    pub fn bytes(&self, alloc: Global) -> Result<Vec<u8>, AllocError> {
        let mut bytes = Vec::from_slice(alloc, b"LTX1\0\0\0")?;
        bytes.push(if self.index { 6 } else { 2 })?;
        bytes.extend_from_slice(&[0, 0, 2, 0, 0, 0, 0, 2])?;
        bytes.extend_from_slice(&[0, 0, 0, 0, 0, 0, 0, self.min])?;
        bytes.extend_from_slice(&[0, 0, 0, 0, 0, 0, 0, self.max])?;
        bytes.extend_from_slice(&[0, 0, 1, 0x8b, 0xcf, 0xe5])?;
        bytes.extend_from_slice(&self.moment)?;
        bytes.extend_from_slice(&[0; 40])?;
        bytes.extend_from_slice(&[0x80, 0, 0, 0, 0, 0, 0, self.max])?;
        bytes.extend_from_slice(&[0; 12])?;
        bytes.extend_from_slice(&[0, 0, 0, 2, 0, 0])?;
        bytes.extend_from_slice(&[self.fill; 512])?;
        bytes.extend_from_slice(&[0; 6])?;
        if self.index {
            bytes.extend_from_slice(&[0, 0, 0, 2, 0, 0, 0, 1])?;
        }
        bytes.extend_from_slice(&[0; 8])?;
        bytes.extend_from_slice(&self.sum.to_be_bytes())?;
        Ok(bytes)
    }

    /// Whether the disk has the file with these bytes.
    pub fn is_in(&self, alloc: Global, disk: &mut MemDisk) -> Result<bool, Fail> {
        let name = read_name(self.path).ok_or("a name")?;
        let found = get(alloc, disk, &name)?;
        Ok(found.as_slice() == self.bytes(alloc)?.as_slice())
    }
}

/// A disk with both pieces.
pub fn disk_with_pieces(alloc: Global) -> Result<MemDisk, Fail> {
    let mut disk = MemDisk::new(alloc);
    disk.put_file(SECOND.path, &SECOND.bytes(alloc)?)?;
    disk.put_file(THIRD.path, &THIRD.bytes(alloc)?)?;
    Ok(disk)
}

/// Whether the merge is there. Both pieces have to be as they were, and nothing else may stand under its name.
pub fn is_merged(alloc: Global, disk: &mut MemDisk) -> Result<bool, Fail> {
    if !SECOND.is_in(alloc, disk)? || !THIRD.is_in(alloc, disk)? {
        return Err(Fail::from("both pieces"));
    }
    if disk.size(MERGED.path)?.is_none() {
        return Ok(false);
    }
    if !MERGED.is_in(alloc, disk)? {
        return Err(Fail::from("the whole merge or nothing"));
    }
    Ok(true)
}
