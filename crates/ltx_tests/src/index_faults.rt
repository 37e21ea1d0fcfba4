//! What is wrong with an index.

use crate::content::{listed, one_page};
use ltx_format::LtxFault;
use ltx_reader::ReadFault;
use std::alloc::Global;
use std::process::Abort;
use std::test::Fail;

/// A byte of the file of page 2 is changed to this one, and the fault is told.
fn check(rt: &impl Abort, alloc: Global, at: usize, byte: u8, fault: LtxFault) -> Result<(), Fail> {
    let mut file = one_page(alloc)?;
    let Some(place) = file.get_mut(at) else {
        return Err("a byte of the file".into());
    };
    *place = byte;
    let found = listed(alloc, &file, 0).err();
    assert_eq!(rt; found, Some(ReadFault::Fault(fault)), "byte {at}");
    Ok(())
}

#[test]
fn a_fault_of_an_index_is_told(rt: HostRuntime) -> Result<(), Fail> {
    let alloc = rt.alloc();
    // a page above the commit, page 0, and another count than that of the length
    check(&rt, alloc, 627, 3, LtxFault::BadIndex(3))?;
    check(&rt, alloc, 627, 0, LtxFault::BadIndex(0))?;
    check(&rt, alloc, 631, 2, LtxFault::BadIndex(0))?;
    check(&rt, alloc, 631, 0, LtxFault::BadIndex(0))?;
    // from transaction 1 on, without page 1
    check(&rt, alloc, 23, 1, LtxFault::BadIndex(0))
}

#[test]
fn fewer_bytes_than_the_least_file_are_short(rt: HostRuntime) -> Result<(), Fail> {
    let alloc = rt.alloc();
    let file = one_page(alloc)?;
    let Some(part) = file.get(..125) else {
        return Err("125 bytes".into());
    };
    let found = listed(alloc, part, 0).err();
    assert_eq!(rt; found, Some(ReadFault::Fault(LtxFault::Short)));
    Ok(())
}
