//! Files that are read page by page from a disk in memory.

ghost use Rattle.std.specs.Prelude.{◌≡◌, ◌<◌, length};

use crate::test_files::{INDEX, REST, large_page, no_page, two_pages};
use crate::{LtxReader, ReadFault};
use crash_disk::{Disk, MemDisk};
use ls_base::Steps;
use ltx_format::LtxFault;
use std::alloc::Global;
use std::marker::Brand;
use std::sync::ledger::{Blank, Ledger};
use std::test::*;

/// The next page, asked for once more where the disk failed.
fn turn<L: Ledger>(
    reader: &mut LtxReader,
    disk: &mut MemDisk,
    page: &mut [u8],
    steps: &mut Steps<L>,
) -> Result<Option<u32>, ReadFault>
    requires { length page.old ≡ reader.old.header.size }
    ensures size { length page.new ≡ reader.new.header.size }
{
    match reader.next_page(disk, page, steps) {
        Err(ReadFault::Disk(_)) => reader.next_page(disk, page, steps),
        answer => answer,
    }
}

/// The numbers of three turns, each asked for before.
fn turns<L: Ledger>(
    alloc: Global,
    disk: &mut MemDisk,
    blank: Blank,
) -> Result<[Option<u32>; 3], ReadFault>
    requires name { blank.name ≡ L.name }
    requires parts { blank.parts ≡ L.parts }
    requires some { 0 < blank.parts }
{
    let mut reader = LtxReader::begin(alloc, disk, "file")?;
    let mut page = vec![in alloc; 0u8; reader.header().size.get() as usize]?;
    let mut steps = Steps::<L>::new(blank);
    let first = turn(&mut reader, disk, page.as_mut_slice(), &mut steps)?;
    let second = turn(&mut reader, disk, page.as_mut_slice(), &mut steps)?;
    let third = turn(&mut reader, disk, page.as_mut_slice(), &mut steps)?;
    Ok([first, second, third])
}

/// The same of a file of these bytes, the call of this number failing where it isn't 0.
fn read(alloc: Global, bytes: &[u8], fails: u64) -> Result<[Option<u32>; 3], ReadFault> {
    let mut disk = MemDisk::new(alloc);
    disk.put_file("file", bytes)?;
    disk.fail_at(fails)?;
    turns::<Brand>(alloc, &mut disk, Blank::new(1))
}

/// Where a byte of the file of two pages is changed, with or without the index, to what, and the first fault
/// then.
const CHANGES: [(bool, usize, u8, LtxFault); 36] = [
    (false, 0, 0, LtxFault::BadMagic),
    (false, 7, 1, LtxFault::Compressed),
    (false, 7, 7, LtxFault::Compressed),
    (false, 7, 0, LtxFault::BadFlags),
    (false, 7, 4, LtxFault::BadFlags),
    (false, 11, 1, LtxFault::BadPageSize),
    (false, 15, 0, LtxFault::BadCommit),
    // 2^31 + 2 pages of 512 bytes
    (false, 12, 128, LtxFault::BadCommit),
    (false, 15, 3, LtxFault::BadOrder(0)),
    (false, 23, 0, LtxFault::BadRange),
    (false, 23, 2, LtxFault::BadRange),
    // pre-apply checksum, the log's offset and length, node, sum of the place, free bytes
    (false, 47, 1, LtxFault::BadReserved),
    (false, 55, 1, LtxFault::BadReserved),
    (false, 63, 1, LtxFault::BadReserved),
    (false, 79, 1, LtxFault::BadReserved),
    (false, 80, 0, LtxFault::BadReserved),
    (false, 99, 1, LtxFault::BadReserved),
    // numbers and flags of the blocks
    (false, 103, 0, LtxFault::BadOrder(0)),
    (false, 105, 1, LtxFault::Compressed),
    (false, 105, 2, LtxFault::BadFlags),
    (false, 621, 1, LtxFault::BadOrder(1)),
    (false, 621, 3, LtxFault::BadOrder(3)),
    (false, 1141, 1, LtxFault::Compressed),
    // the flags tell of an index that isn't there, or don't tell of the one that is
    (false, 7, 6, LtxFault::BadIndex(0)),
    (true, 7, 2, LtxFault::BadReserved),
    // both numbers of the index, and its count
    (true, 1145, 0, LtxFault::BadIndex(0)),
    (true, 1145, 2, LtxFault::BadIndex(2)),
    (true, 1149, 1, LtxFault::BadIndex(1)),
    (true, 1153, 1, LtxFault::BadIndex(0)),
    (true, 1153, 3, LtxFault::BadIndex(0)),
    // post-apply checksum, a byte of a page, the sum
    (false, 1142, 1, LtxFault::BadReserved),
    (true, 1154, 1, LtxFault::BadReserved),
    (
        false,
        200,
        0x12,
        LtxFault::BadSum {
            kept: 0xf856_1898_5aa5_0591,
            found: 0xcf19_a355_7f75_3b26,
        },
    ),
    (
        false,
        1157,
        0x90,
        LtxFault::BadSum {
            kept: 0xf856_1898_5aa5_0590,
            found: 0xf856_1898_5aa5_0591,
        },
    ),
    (
        true,
        200,
        0x12,
        LtxFault::BadSum {
            kept: 0xecc7_aa29_5f55_37d2,
            found: 0xd9d1_0bf7_0520_5d3c,
        },
    ),
    (
        true,
        1169,
        0xd3,
        LtxFault::BadSum {
            kept: 0xecc7_aa29_5f55_37d3,
            found: 0xecc7_aa29_5f55_37d2,
        },
    ),
];

#[test]
fn the_pages_of_a_file_are_given_in_turn(rt: HostRuntime) -> Result<(), Fail> {
    let plain = two_pages(rt.alloc(), &REST, &[])?;
    let indexed = two_pages(rt.alloc(), &REST, &INDEX)?;
    let large = large_page(rt.alloc())?;
    let none = no_page(rt.alloc())?;
    let rows = [
        (&plain, [Some(1), Some(2), None]),
        (&indexed, [Some(1), Some(2), None]),
        (&large, [Some(1), None, None]),
        (&none, [None, None, None]),
    ];
    for (file, numbers) in &rows {
        assert_eq!(rt; read(rt.alloc(), file.as_slice(), 0).ok(), Some(*numbers));
    }
    Ok(())
}

#[test]
fn a_reader_tells_the_fault_of_its_file(rt: HostRuntime) -> Result<(), Fail> {
    for (indexed, at, byte, fault) in CHANGES {
        let index = if indexed { &INDEX[..] } else { &INDEX[..0] };
        let mut file = two_pages(rt.alloc(), &REST, index)?;
        if let Some(changed) = file.get_mut(at) {
            *changed = byte;
        }
        let found = read(rt.alloc(), &file, 0).err();
        assert_eq!(rt; found, Some(ReadFault::Fault(fault)), "at {at}");
    }
    Ok(())
}

#[test]
fn a_fault_of_the_disk_is_passed_over_by_the_next_turn(rt: HostRuntime) -> Result<(), Fail> {
    let file = two_pages(rt.alloc(), &REST, &INDEX)?;
    // the header is the first call
    for call in 2..=15 {
        let numbers = read(rt.alloc(), &file, call).ok();
        assert_eq!(rt; numbers, Some([Some(1), Some(2), None]), "at {call}");
    }
    Ok(())
}

#[test]
fn a_file_that_shrinks_is_short(rt: HostRuntime) -> Result<(), Fail> {
    let file = two_pages(rt.alloc(), &REST, &[])?;
    let mut disk = MemDisk::new(rt.alloc());
    disk.put_file("file", &file)?;
    let mut reader = LtxReader::begin(rt.alloc(), &mut disk, "file")
        .ok()
        .ok_or("a header")?;
    let cut = file.get(..103).ok_or("the front")?;
    disk.put_file("file", cut)?;
    for _ in 0..2 {
        let found = reader.number(&mut disk).err();
        assert_eq!(rt; found, Some(ReadFault::Fault(LtxFault::Short)));
    }
    Ok(())
}
