//! A merge that a stop of the machine cuts off, and what a crash then leaves.

use crate::content::{disk_with_pieces, is_merged};
use crate::merging::{CALLS, merge_pieces};
use std::alloc::Global;
use std::process::Abort;
use std::test::Fail;

/// How many calls a merge has made once it has renamed the file. The sync of the names comes behind it.
const RENAMED: u64 = CALLS - 1;

/// Whether the merge is there after so many calls and a crash by the choice; none where the choice may leave it or not.
///
/// Choice 0 takes no change of a name that wasn't synced, and choices 1 and 2 take all of them.
fn is_there(calls: u64, choice: u64) -> Option<bool> {
    if calls != RENAMED {
        return Some(calls > RENAMED);
    }
    match choice {
        0 => Some(false),
        1 | 2 => Some(true),
        _ => None,
    }
}

fn check(rt: &impl Abort, alloc: Global, calls: u64, choice: u64) -> Result<(), Fail> {
    let mut store = disk_with_pieces(alloc)?;
    store.stop_after(calls);
    let done = merge_pieces(alloc, &mut store)?.is_ok();
    assert_eq!(rt; done, calls == CALLS, "stop after {calls}");
    store.crash(choice)?;
    let there = is_merged(alloc, &mut store)?;
    assert_eq!(rt;
        there,
        is_there(calls, choice).unwrap_or(there),
        "stop after {calls}, choice {choice}"
    );
    Ok(())
}

#[test]
fn a_stopped_merge_leaves_the_pieces_and_the_whole_merge_or_none(
    rt: HostRuntime,
) -> Result<(), Fail> {
    for case in 0..8 * (CALLS + 1) {
        check(&rt, rt.alloc(), case / 8, case % 8)?;
    }
    Ok(())
}
