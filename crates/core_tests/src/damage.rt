//! Replicas with damaged files.

use crate::carrying::carried_out;
use crate::files::{LACKING, OUTPUT, Replica, WHOLE, bytes_of, disk_of};
use crash_disk::{Disk, MemDisk, MemOut};
use litestream_core::Why;
use ltx_format::LtxFault;
use replica_store::{Damage, FileName, read_name};
use std::alloc::Global;
use std::process::Abort;
use std::test::Fail;

/// The whole file cut to a length under some name, a line, and the damage that is found.
struct Row {
    path: &'static str,
    length: usize,
    line: &'static str,
    damage: Damage,
}

const ROWS: [Row; 4] = [
    Row {
        path: "ltx/9/0000000000000001-0000000000000001.ltx",
        length: 1157,
        line: "restore -o D/o -txid 1 R",
        damage: Damage::File(LtxFault::Short),
    },
    Row {
        path: "ltx/9/0000000000000001-0000000000000002.ltx",
        length: 1158,
        line: "restore -o D/o R",
        damage: Damage::NameDiffers,
    },
    Row {
        path: "ltx/9/0000000000000001-0000000000000001.ltx",
        length: 0,
        line: "restore -o D/o R",
        damage: Damage::File(LtxFault::Short),
    },
    Row {
        path: "ltx/9/0000000000000001-0000000000000001.ltx",
        length: 99,
        line: "restore -o D/o -timestamp 2023-11-14T22:13:20Z R",
        damage: Damage::File(LtxFault::Short),
    },
];

fn name_of(text: &str) -> Result<FileName, Fail> {
    let name = read_name(text).ok_or("no name")?;
    Ok(name)
}

fn check(rt: &impl Abort, alloc: Global, number: usize, row: &Row) -> Result<(), Fail> {
    let mut bytes = bytes_of(alloc, &WHOLE)?;
    bytes.truncate(row.length);
    let mut store = MemDisk::new(alloc);
    store.put_file(row.path, &bytes)?;
    let mut target = MemDisk::new(alloc);
    let mut out = MemOut::new(alloc);
    let outcome = carried_out(alloc, row.line, &mut store, &mut target, &mut out)?;
    let why = Why::Damaged(name_of(row.path)?, row.damage);
    assert_eq!(rt; outcome.why, why, "row {number}");
    assert_eq!(rt; outcome.status, 1, "row {number}");
    assert_eq!(rt; out.bytes(), b"".as_slice(), "row {number}");
    assert_eq!(rt; target.size(OUTPUT)?, None, "row {number}");
    Ok(())
}

#[test]
fn a_damaged_file_is_told(rt: HostRuntime) -> Result<(), Fail> {
    for (number, row) in ROWS.iter().enumerate() {
        check(&rt, rt.alloc(), number, row)?;
    }
    Ok(())
}

#[test]
fn a_missing_page_is_told(rt: HostRuntime) -> Result<(), Fail> {
    let mut store = disk_of(rt.alloc(), Replica::Lacking)?;
    let mut target = MemDisk::new(rt.alloc());
    let mut out = MemOut::new(rt.alloc());
    let line = "restore -o D/o R";
    let outcome = carried_out(rt.alloc(), line, &mut store, &mut target, &mut out)?;
    let why = Why::PageMissing(name_of(LACKING.path)?, 3);
    assert_eq!(rt; outcome.why, why);
    assert_eq!(rt; outcome.status, 1);
    assert_eq!(rt; target.size(OUTPUT)?, None);
    Ok(())
}
