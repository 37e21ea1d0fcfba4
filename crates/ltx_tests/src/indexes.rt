//! The numbers in an index.

use crate::content::{listed, no_page, one_page};
use crash_disk::DiskFault;
use ltx_reader::ReadFault;
use std::process::Abort;
use std::test::Fail;

#[test]
fn the_number_in_an_index_is_read(rt: HostRuntime) -> Result<(), Fail> {
    let alloc = rt.alloc();
    let file = one_page(alloc)?;
    assert_eq!(rt; file.len(), 648);
    assert_eq!(rt;
        file.get(624..632),
        Some([0u8, 0, 0, 2, 0, 0, 0, 1].as_slice())
    );
    assert_eq!(rt; listed(alloc, &file, 0).ok(), Some([Some(2), None]));
    Ok(())
}

#[test]
fn an_index_without_a_number_is_read(rt: HostRuntime) -> Result<(), Fail> {
    let alloc = rt.alloc();
    let file = no_page(alloc)?;
    assert_eq!(rt; file.len(), 126);
    assert_eq!(rt; listed(alloc, &file, 0).ok(), Some([None, None]));
    Ok(())
}

#[test]
fn a_failing_call_is_a_fault_of_the_disk(rt: HostRuntime) -> Result<(), Fail> {
    let alloc = rt.alloc();
    let file = one_page(alloc)?;
    // the length, the count, and the number
    for call in 1..4 {
        let fault = listed(alloc, &file, call).err();
        assert_eq!(rt; fault, Some(ReadFault::Disk(DiskFault)), "call {call}");
    }
    assert!(rt; listed(alloc, &file, 4).is_ok());
    Ok(())
}
