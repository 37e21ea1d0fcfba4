//! Calls that fail, and stops of the replica's disk.

use crate::content::{MOMENT, PIECE, WHOLE, database, run};
use crash_disk::{Disk, MemDisk, MemOut};
use ls_answers::Why;
use std::alloc::Global;
use std::process::Abort;
use std::test::Fail;

/// A replica with the whole state behind the first commit.
fn replica(alloc: Global) -> Result<MemDisk, Fail> {
    let mut store = MemDisk::new(alloc);
    let mut live = database(alloc, 2, b"")?;
    let mut out = MemOut::new(alloc);
    let _ = run(alloc, &mut live, &mut store, &mut out, 1, MOMENT);
    Ok(store)
}

/// How the next run ends over the store.
fn next(alloc: Global, store: &mut MemDisk) -> Result<Why, Fail> {
    let mut live = database(alloc, 5, b"")?;
    let mut out = MemOut::new(alloc);
    Ok(run(alloc, &mut live, store, &mut out, 1, MOMENT + 1_000))
}

/// How many calls of the disk a run makes that stores a piece behind one file: to attach it, to sync the names, and two
/// for the newest line; two for the files of the round, and six to put the piece.
const CALLS: u64 = 12;

/// A disk that was stopped after so many calls of a run and then crashed by a choice; none where the run was done though
/// it was stopped, or stopped though it was done.
fn crashed(alloc: Global, calls: u64, choice: u64) -> Result<Option<MemDisk>, Fail> {
    let mut store = replica(alloc)?;
    store.stop_after(calls);
    let done = next(alloc, &mut store)? == Why::Done;
    store.crash(choice)?;
    if done != (calls >= CALLS) {
        return Ok(None);
    }
    Ok(Some(store))
}

/// Whether both files are there with all their bytes.
fn has_both(store: &mut MemDisk) -> Result<bool, Fail> {
    Ok(store.size(WHOLE)? == Some(1158) && store.size(PIECE)? == Some(640))
}

/// Whether the first file is there after a stop and a crash, and the second too where the run was done; and whether the
/// next run leaves both.
fn is_kept(alloc: Global, calls: u64, choice: u64) -> Result<bool, Fail> {
    let Some(mut store) = crashed(alloc, calls, choice)? else {
        return Ok(false);
    };
    let first = store.size(WHOLE)? == Some(1158);
    let both = has_both(&mut store)?;
    let done = next(alloc, &mut store)? == Why::Done;
    Ok(first && (both || calls < CALLS) && done && has_both(&mut store)?)
}

fn check_stops(rt: &impl Abort, alloc: Global, calls: u64) -> Result<(), Fail> {
    for choice in 0..8 {
        assert!(rt; is_kept(alloc, calls, choice)?, "{calls} {choice}");
    }
    Ok(())
}

#[test]
fn a_stop_at_any_call_keeps_what_was_stored(rt: HostRuntime) -> Result<(), Fail> {
    for calls in 0..CALLS + 1 {
        check_stops(&rt, rt.alloc(), calls)?;
    }
    Ok(())
}

/// How many calls of the disk a first run makes at least: to attach it, to sync the names, one for the newest line, one
/// for the files of the round, and five to put the whole state.
const FIRST_CALLS: u64 = 9;

/// Whether a first run, of which the call of this number on the disk fails, tells that.
fn is_told(alloc: Global, call: u64) -> Result<bool, Fail> {
    let mut store = MemDisk::new(alloc);
    store.fail_at(call)?;
    Ok(next(alloc, &mut store)? == Why::StoreFault && store.faults() == 1)
}

#[test]
fn a_failing_call_of_the_disk_is_told(rt: HostRuntime) -> Result<(), Fail> {
    for call in 1..FIRST_CALLS + 1 {
        assert!(&rt; is_told(rt.alloc(), call)?, "{call}");
    }
    Ok(())
}
