//! A merge of which one call fails.

use crate::content::{disk_with_pieces, is_merged};
use crate::merging::{CALLS, merge_pieces};
use compact_levels::MergeFault;
use crash_disk::{Disk, DiskFault};
use std::alloc::Global;
use std::process::Abort;
use std::test::Fail;

fn check(rt: &impl Abort, alloc: Global, call: u64) -> Result<(), Fail> {
    let mut store = disk_with_pieces(alloc)?;
    store.fail_at(call)?;
    let fault = merge_pieces(alloc, &mut store)?.err();
    assert_eq!(rt; fault, Some(MergeFault::Store(DiskFault)), "call {call}");
    assert_eq!(rt; store.faults(), 1, "call {call}");
    // the last call comes behind the one that gives the file its name
    assert_eq!(rt; is_merged(alloc, &mut store)?, call == CALLS, "call {call}");
    let again = merge_pieces(alloc, &mut store)?.is_ok();
    assert!(rt; again, "again after call {call}");
    assert!(rt; is_merged(alloc, &mut store)?, "again after call {call}");
    Ok(())
}

#[test]
fn a_merge_with_a_failing_call_fails_and_the_next_passes(rt: HostRuntime) -> Result<(), Fail> {
    for call in 1..=CALLS {
        check(&rt, rt.alloc(), call)?;
    }
    Ok(())
}
