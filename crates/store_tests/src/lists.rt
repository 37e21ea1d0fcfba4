//! Lists of a store's names.

use crate::content::{DRAFT, PATH};
use crash_disk::MemDisk;
use replica_store::{list, write_name};
use std::alloc::Global;
use std::test::Fail;

/// Whether the store's list is of these names, in this order.
fn lists(alloc: Global, store: &mut MemDisk, wanted: &[&str]) -> Result<bool, Fail> {
    let names = list(alloc, store)?;
    if names.as_slice().len() != wanted.len() {
        return Ok(false);
    }
    for (name, text) in names.as_slice().iter().zip(wanted) {
        if write_name(name).as_str() != *text {
            return Ok(false);
        }
    }
    Ok(true)
}

#[test]
fn temporary_and_foreign_names_are_passed_over(rt: HostRuntime) -> Result<(), Fail> {
    let mut store = MemDisk::new(rt.alloc());
    assert!(rt; lists(rt.alloc(), &mut store, &[])?);
    store.put_file(PATH, b"a")?;
    store.put_file(DRAFT, b"b")?;
    store.put_file("note", b"c")?;
    assert!(rt; lists(rt.alloc(), &mut store, &[PATH])?);
    Ok(())
}

/// Names by level, then by the first transaction, then by the last.
const LISTED: [&str; 7] = [
    "ltx/0/0000000000000002-0000000000000002.ltx",
    "ltx/0/000000000000000a-000000000000000a.ltx",
    "ltx/1/0000000000000001-0000000000000003.ltx",
    "ltx/1/0000000000000001-0000000000000010.ltx",
    "ltx/1/0000000000000002-0000000000000002.ltx",
    "ltx/3/0000000000000001-0000000000000001.ltx",
    "ltx/9/0000000000000001-0000000000000002.ltx",
];

/// The places of those names in the order in which they are put.
const PLACES: [usize; 7] = [4, 6, 1, 3, 0, 5, 2];

#[test]
fn names_are_listed_by_level_then_first_then_last(rt: HostRuntime) -> Result<(), Fail> {
    let mut store = MemDisk::new(rt.alloc());
    for place in PLACES {
        store.put_file(LISTED.get(place).ok_or("no place")?, b"a")?;
    }
    assert!(rt; lists(rt.alloc(), &mut store, &LISTED)?);
    Ok(())
}
