//! A restore that a stop of the machine cuts off, and what a crash then leaves.

use crate::carrying::carried_out;
use crate::files::{Replica, disk_of, holds};
use crash_disk::{MemDisk, MemOut};
use litestream_core::Why;
use std::alloc::Global;
use std::process::Abort;
use std::test::Fail;

pub const LINE: &str = "restore -o D/o -txid 1 R";

/// The bytes of the pages that the restore writes.
pub const PAGES: [u8; 2] = [0x11, 0x22];

/// How many calls on the output's disk the restore makes: attach, the size of the output, create, append, sync,
/// rename, and the sync of the names.
pub const CALLS: u64 = 7;

/// How many of them it has made once the output has its name.
pub const RENAMED: u64 = 6;

/// Whether the output is there after a restore that was stopped behind so many calls, and a crash by a choice; none
/// where the choice may leave it or not.
///
/// Choice 0 takes no change of a name that wasn't synced, and choices 1 and 2 take all of them.
fn stands(calls: u64, choice: u64) -> Option<bool> {
    match (calls, choice) {
        (CALLS, _) | (RENAMED, 1 | 2) => Some(true),
        (RENAMED, 0) => Some(false),
        (RENAMED, _) => None,
        _ => Some(false),
    }
}

/// The restore once more, where there is no output. Whether it was done and left the pages.
fn restores_anew(alloc: Global, store: &mut MemDisk, target: &mut MemDisk) -> Result<bool, Fail> {
    let mut out = MemOut::new(alloc);
    let outcome = carried_out(alloc, LINE, store, target, &mut out)?;
    Ok(outcome.why == Why::Done && holds(alloc, target, &PAGES)?)
}

/// The restore stopped behind so many calls. Whether it was done.
fn stopped(
    alloc: Global,
    calls: u64,
    store: &mut MemDisk,
    target: &mut MemDisk,
) -> Result<bool, Fail> {
    target.stop_after(calls);
    let mut out = MemOut::new(alloc);
    let outcome = carried_out(alloc, LINE, store, target, &mut out)?;
    Ok(outcome.why == Why::Done)
}

/// Whether there is an output that is whole.
fn is_there(alloc: Global, target: &mut MemDisk) -> Result<bool, Fail> {
    let whole = holds(alloc, target, &PAGES)?;
    if !whole && !holds(alloc, target, &[])? {
        return Err("neither whole nor absent".into());
    }
    Ok(whole)
}

fn check(rt: &impl Abort, alloc: Global, calls: u64, choice: u64) -> Result<(), Fail> {
    let mut store = disk_of(alloc, Replica::Whole)?;
    let mut target = MemDisk::new(alloc);
    let done = stopped(alloc, calls, &mut store, &mut target)?;
    assert!(rt; done == (calls == CALLS), "stop after {calls}");
    target.crash(choice)?;
    let there = is_there(alloc, &mut target)?;
    let as_told = stands(calls, choice).unwrap_or(there) == there;
    assert!(rt; as_told, "stop after {calls}, choice {choice}");
    let anew = there || restores_anew(alloc, &mut store, &mut target)?;
    assert!(rt; anew, "anew after {calls}, choice {choice}");
    Ok(())
}

fn check_choices(rt: &impl Abort, alloc: Global, calls: u64) -> Result<(), Fail> {
    for choice in 0..8 {
        check(rt, alloc, calls, choice)?;
    }
    Ok(())
}

#[test]
fn a_stopped_restore_leaves_the_whole_output_or_none(rt: HostRuntime) -> Result<(), Fail> {
    for calls in 0..8 {
        check_choices(&rt, rt.alloc(), calls)?;
    }
    Ok(())
}
