//! Steps of a replica that a stop of the machine cuts off, and what a crash then leaves.

use crate::content::{PATH, WHOLE_PATH, name_of, reads};
use crate::steps::{drop_both, put_both};
use crate::stops::is_changed;
use crash_disk::MemDisk;
use std::alloc::Global;
use std::process::Abort;
use std::test::Fail;

/// The name of a file behind the first.
const NEXT_PATH: &str = "ltx/0/0000000000000002-0000000000000002.ltx";

/// Two puts make twelve calls: each removes, creates, appends, syncs, renames and syncs the names.
const PUT_CALLS: u64 = 12;

/// Whether the file of a name has these bytes, and not where it is absent; any other bytes fail.
fn is_there(alloc: Global, store: &mut MemDisk, path: &str, text: &str) -> Result<bool, Fail> {
    let name = name_of(path)?;
    let whole = reads(alloc, store, &name, Some(text))?;
    if !whole && !reads(alloc, store, &name, None)? {
        return Err(Fail::from("other bytes"));
    }
    Ok(whole)
}

fn check_puts(rt: &impl Abort, alloc: Global, calls: u64, choice: u64) -> Result<(), Fail> {
    let first = name_of(WHOLE_PATH)?;
    let second = name_of(NEXT_PATH)?;
    let mut store = MemDisk::new(alloc);
    store.stop_after(calls);
    let done = put_both(&mut store, &first, b"one", &second, b"two").is_ok();
    assert_eq!(rt; done, calls == PUT_CALLS, "stop after {calls}");
    store.crash(choice)?;
    let one = is_there(alloc, &mut store, WHOLE_PATH, "one")?;
    let two = is_there(alloc, &mut store, NEXT_PATH, "two")?;
    let wanted = is_changed(calls, 5, 6, choice).unwrap_or(one);
    assert_eq!(rt; one, wanted, "stop after {calls}, choice {choice}");
    let wanted = is_changed(calls, 11, 12, choice).unwrap_or(two);
    assert_eq!(rt; two, wanted, "stop after {calls}, choice {choice}");
    Ok(())
}

/// Two drops make three calls: both remove a name, and the names are synced.
const DROP_CALLS: u64 = 3;

fn check_drops(rt: &impl Abort, alloc: Global, calls: u64, choice: u64) -> Result<(), Fail> {
    let first = name_of(PATH)?;
    let second = name_of(NEXT_PATH)?;
    let mut store = MemDisk::new(alloc);
    store.put_file(WHOLE_PATH, b"kept")?;
    store.put_file(PATH, b"one")?;
    store.put_file(NEXT_PATH, b"two")?;
    store.stop_after(calls);
    let done = drop_both(&mut store, &first, &second).is_ok();
    assert_eq!(rt; done, calls == DROP_CALLS, "stop after {calls}");
    store.crash(choice)?;
    assert!(rt; is_there(alloc, &mut store, WHOLE_PATH, "kept")?);
    let one = is_there(alloc, &mut store, PATH, "one")?;
    let two = is_there(alloc, &mut store, NEXT_PATH, "two")?;
    let gone = is_changed(calls, 1, DROP_CALLS, choice).unwrap_or(!one);
    assert_eq!(rt; one, !gone, "stop after {calls}, choice {choice}");
    let gone = is_changed(calls, 2, DROP_CALLS, choice).unwrap_or(!two);
    assert_eq!(rt; two, !gone, "stop after {calls}, choice {choice}");
    Ok(())
}

#[test]
fn stopped_puts_leave_each_file_whole_or_none(rt: HostRuntime) -> Result<(), Fail> {
    for case in 0..104 {
        check_puts(&rt, rt.alloc(), case / 8, case % 8)?;
    }
    Ok(())
}

#[test]
fn stopped_drops_leave_the_others_alone(rt: HostRuntime) -> Result<(), Fail> {
    for case in 0..32 {
        check_drops(&rt, rt.alloc(), case / 8, case % 8)?;
    }
    Ok(())
}
