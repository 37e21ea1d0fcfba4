//! Files with an index, and what is listed in them.

ghost use Rattle.std.specs.Prelude.{◌≡◌, ◌<◌, length};
ghost use Rattle.std.specs.Bool.{OnTrue};
ghost use Rattle.ltx_format.specs.LtxFormat.{IsStored};

use crash_disk::{Disk, MemDisk};
use ltx_format::{IndexWriter, LtxFault, LtxHeader, read_ltx_header};
use ltx_reader::{ReadFault, read_index};
use std::alloc::Global;
use std::test::Fail;

/// The header of a file with an index, transactions 2 and 3, of a database of two pages of 512 bytes and of a place
/// in the log: end 1640, salts 1 and 2.
pub const HEAD: [u8; 100] = [
    0x4c, 0x54, 0x58, 0x31, 0, 0, 0, 6, 0, 0, 2, 0, 0, 0, 0, 2, 0, 0, 0, 0, 0, 0, 0, 2, 0, 0, 0, 0,
    0, 0, 0, 3, 0, 0, 1, 0x8b, 0xcf, 0xe5, 0x6f, 0xd0, 0, 0, 0, 0, 0, 0, 0, 0, 0, 0, 0, 0, 0, 0, 0,
    0x20, 0, 0, 0, 0, 0, 0, 6, 0x48, 0, 0, 0, 1, 0, 0, 0, 2, 0, 0, 0, 0, 0, 0, 0, 0, 1, 2, 3, 4, 5,
    6, 7, 8, 0, 0, 0, 0, 0, 0, 0, 0, 0, 0, 0, 0,
];

/// Whether this page may be the first of a file of this header.
fn may_be_first(header: &LtxHeader, number: u32, page: &[u8]) -> bool
    ensures rises { OnTrue result (0 < number) }
    ensures stored { OnTrue result (IsStored header.now number) }
    ensures sized { OnTrue result (length page.now ≡ header.now.size) }
{
    0 < number
        && number <= header.commit
        && number != header.size.lock_page()
        && page.len() == header.size.get() as usize
}

/// The file of `HEAD` without a page: 126 bytes.
pub fn no_page(alloc: Global) -> Result<Vec<u8>, Fail> {
    let header = read_ltx_header(&HEAD).ok().ok_or("a header")?;
    if !header.index {
        return Err("no index".into());
    }
    let mut front = [0; 100];
    let writer = IndexWriter::begin(alloc, &header, &mut front);
    let tail = writer.finish()?;
    let mut file = Vec::from_slice(alloc, &front)?;
    file.extend_from_slice(tail.as_slice())?;
    Ok(file)
}

/// The file of `HEAD` and page 2 alone: 648 bytes, the number in the index at byte 624, the count at byte 628.
pub fn one_page(alloc: Global) -> Result<Vec<u8>, Fail> {
    let header = read_ltx_header(&HEAD).ok().ok_or("a header")?;
    let page = [0x44; 512];
    if !header.index || !may_be_first(&header, 2, &page) {
        return Err("page 2 of a file with an index".into());
    }
    let mut front = [0; 100];
    let mut block = [0; 6];
    let mut writer = IndexWriter::begin(alloc, &header, &mut front);
    writer.page(2, &page, &mut block)?;
    let tail = writer.finish()?;
    let mut file = Vec::from_slice(alloc, &front)?;
    file.extend_from_slice(&block)?;
    file.extend_from_slice(&page)?;
    file.extend_from_slice(tail.as_slice())?;
    Ok(file)
}

/// The first two numbers in the index of the file on the disk, whose first bytes are these.
pub fn numbers<D: Disk>(
    alloc: Global,
    disk: &mut D,
    front: &[u8],
) -> Result<[Option<u32>; 2], ReadFault> {
    let header = read_ltx_header(front)?;
    if !header.index {
        return Err(ReadFault::Fault(LtxFault::BadFlags));
    }
    let list = read_index(alloc, disk, "file", &header)?;
    Ok([list.get(0), list.get(1)])
}

/// The same of a file of these bytes on a disk in memory, the call of this number failing where it isn't 0.
pub fn listed(alloc: Global, bytes: &[u8], fails: u64) -> Result<[Option<u32>; 2], ReadFault> {
    let mut disk = MemDisk::new(alloc);
    disk.put_file("file", bytes)?;
    disk.fail_at(fails)?;
    numbers(alloc, &mut disk, bytes)
}
