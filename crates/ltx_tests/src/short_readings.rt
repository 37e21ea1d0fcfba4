//! Files that are read from a disk that reads short.

ghost use Rattle.std.specs.Prelude.{◌≡◌, ◌<◌};

use crate::content::{no_page, numbers, one_page};
use crate::short_disk::ShortDisk;
use ls_base::Steps;
use ltx_format::LtxFault;
use ltx_reader::{LtxReader, ReadFault};
use std::alloc::Global;
use std::marker::Brand;
use std::process::Abort;
use std::sync::ledger::{Blank, Ledger};
use std::test::Fail;

/// The file on a disk that gives three bytes at a time.
fn disk_of(bytes: &[u8], alloc: Global, length: u32) -> Result<ShortDisk, Fail> {
    Ok(ShortDisk {
        bytes: Vec::from_slice(alloc, bytes)?,
        length,
        most: 3,
        faults: 0,
    })
}

/// What a reader of the file answers in two turns.
fn turns<L: Ledger>(
    alloc: Global,
    disk: &mut ShortDisk,
    blank: Blank,
) -> Result<[Option<u32>; 2], ReadFault>
    requires name { blank.name ≡ L.name }
    requires parts { blank.parts ≡ L.parts }
    requires some { 0 < blank.parts }
{
    let mut reader = LtxReader::begin(alloc, disk, "file")?;
    let mut page = vec![in alloc; 0u8; reader.header().size.get() as usize]?;
    let mut steps = Steps::<L>::new(blank);
    let first = reader.next_page(disk, page.as_mut_slice(), &mut steps)?;
    let second = reader.next_page(disk, page.as_mut_slice(), &mut steps)?;
    Ok([first, second])
}

/// The same with a count of steps of its own.
fn pages(alloc: Global, disk: &mut ShortDisk) -> Result<[Option<u32>; 2], ReadFault> {
    turns::<Brand>(alloc, disk, Blank::new(1))
}

#[test]
fn a_disk_may_read_short(rt: HostRuntime) -> Result<(), Fail> {
    let alloc = rt.alloc();
    let file = one_page(alloc)?;
    let mut disk = disk_of(&file, alloc, 648)?;
    assert_eq!(rt;
        numbers(alloc, &mut disk, &file).ok(),
        Some([Some(2), None])
    );
    assert_eq!(rt; pages(alloc, &mut disk).ok(), Some([Some(2), None]));
    let empty = no_page(alloc)?;
    let mut disk = disk_of(&empty, alloc, 126)?;
    assert_eq!(rt; numbers(alloc, &mut disk, &empty).ok(), Some([None, None]));
    assert_eq!(rt; pages(alloc, &mut disk).ok(), Some([None, None]));
    Ok(())
}

/// A file that has lost its bytes from this one on is short, by its index and page by page.
fn check(rt: &impl Abort, alloc: Global, length: usize) -> Result<(), Fail> {
    let file = one_page(alloc)?;
    let Some(front) = file.get(..length) else {
        return Err("a front of the file".into());
    };
    let short = Some(ReadFault::Fault(LtxFault::Short));
    let mut disk = disk_of(front, alloc, 648)?;
    assert_eq!(rt;
        numbers(alloc, &mut disk, &file).err(),
        short,
        "{length} bytes"
    );
    assert_eq!(rt; pages(alloc, &mut disk).err(), short, "{length} bytes");
    Ok(())
}

#[test]
fn what_is_gone_from_the_end_is_not_read_as_zeros(rt: HostRuntime) -> Result<(), Fail> {
    let alloc = rt.alloc();
    check(&rt, alloc, 631)?;
    check(&rt, alloc, 625)?;
    check(&rt, alloc, 617)?;
    check(&rt, alloc, 103)
}
