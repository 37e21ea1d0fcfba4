//! A put that a stop of the machine cuts off, and what a crash then leaves.

use crate::content::{WHOLE_PATH, has_bytes, name_of, whole_file};
use crate::putting::{CALLS, put_pieces};
use crash_disk::MemDisk;
use std::alloc::Global;
use std::process::Abort;
use std::test::Fail;

/// How many calls a put has made once it has renamed the file. The sync of the names comes behind it.
const RENAMED: u64 = 6;

/// Where the first of the two pieces ends.
const HALF: usize = 579;

/// Whether a name that was changed by a call, and brought to the disk by the one behind it, is as changed after so
/// many calls and a crash by the choice; none where the choice may leave it so or not.
///
/// Choice 0 takes no change of a name that wasn't synced, and choices 1 and 2 take all of them.
pub fn is_changed(calls: u64, changed: u64, synced: u64, choice: u64) -> Option<bool> {
    if calls < changed || calls >= synced {
        return Some(calls >= synced);
    }
    match choice {
        0 => Some(false),
        1 | 2 => Some(true),
        _ => None,
    }
}

fn check(rt: &impl Abort, alloc: Global, calls: u64, choice: u64) -> Result<(), Fail> {
    let name = name_of(WHOLE_PATH)?;
    let file = whole_file(alloc)?;
    if file.len() != 1158 {
        return Err(Fail::from("the file has 1158 bytes"));
    }
    let (first, second) = file.as_slice().split_at(HALF);
    let mut store = MemDisk::new(alloc);
    store.stop_after(calls);
    let done = put_pieces(&mut store, &name, first, second).is_ok();
    assert_eq!(rt; done, calls == CALLS, "stop after {calls}");
    store.crash(choice)?;
    let whole = has_bytes(alloc, &mut store, &name, Some(file.as_slice()))?;
    let absent = has_bytes(alloc, &mut store, &name, None)?;
    assert!(rt; whole || absent, "stop after {calls}, choice {choice}");
    assert_eq!(rt;
        is_changed(calls, RENAMED, CALLS, choice).unwrap_or(whole),
        whole,
        "stop after {calls}, choice {choice}"
    );
    Ok(())
}

fn check_choices(rt: &impl Abort, alloc: Global, calls: u64) -> Result<(), Fail> {
    for choice in 0..8 {
        check(rt, alloc, calls, choice)?;
    }
    Ok(())
}

#[test]
fn a_stopped_put_leaves_the_whole_file_or_none(rt: HostRuntime) -> Result<(), Fail> {
    for calls in 0..8 {
        check_choices(&rt, rt.alloc(), calls)?;
    }
    Ok(())
}
