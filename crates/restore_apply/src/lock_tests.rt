//! The lock page in an output: zeros, where it lies before the next page or the end. Its number is that of the page
//! with the byte at 2^30 (SQLite database file format, section 1.6): 16385 for pages of 65536 bytes, 2097153 for those
//! of 512.

use crate::gathered::Gathered;
use crate::pages::put_lock_page;
use crash_disk::{Disk, DiskFault, MemDisk};
use ls_base::PageSize;
use std::alloc::Global;
use std::test::*;

/// A page size, the page that was put last, the next one or one past the end, and how many zeros come between.
const ROWS: [(u32, u32, u64, usize); 8] = [
    (65536, 16384, 16386, 65536),
    (65536, 16000, 17000, 65536),
    (65536, 0, 16386, 65536),
    (65536, 16383, 16385, 0),
    (65536, 16385, 16387, 0),
    (65536, 16386, 16387, 0),
    (512, 2097152, 2097154, 512),
    (512, 2097151, 2097153, 0),
];

/// Puts what comes between the two pages into a new file.
fn write_between<D: Disk>(
    disk: &mut D,
    name: &str,
    size: PageSize,
    last: u32,
    next: u64,
    gathered: &mut Gathered,
) -> Result<(), DiskFault> {
    disk.create(name)?;
    put_lock_page(disk, name, size, last, next, gathered)?;
    gathered.flush(disk, name)
}

/// How many bytes come between, and whether they are zeros.
fn between(alloc: Global, size: u32, last: u32, next: u64) -> Result<(usize, bool), Fail> {
    let size = PageSize::from_u32(size).ok_or("a page size")?;
    let mut disk = MemDisk::new(alloc);
    let mut gathered = Gathered::new(alloc)?;
    write_between(&mut disk, "o", size, last, next, &mut gathered)?;
    let mut bytes = vec![in alloc; 1u8; 70000]?;
    let count = disk.read_at("o", 0, bytes.as_mut_slice())?;
    let zeros = bytes.iter().take(count).all(|byte| *byte == 0);
    Ok((count, zeros))
}

#[test]
fn the_lock_page_of_an_output_is_zeros(rt: HostRuntime) -> Result<(), Fail> {
    for (size, last, next, zeros) in ROWS {
        let found = between(rt.alloc(), size, last, next)?;
        assert_eq!(rt; found, (zeros, true), "{size} {last} {next}");
    }
    Ok(())
}
