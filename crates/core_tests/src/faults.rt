//! Restores of which one call fails.

use crate::carrying::carried_out;
use crate::files::{Replica, disk_of, holds};
use crate::stops::{CALLS, LINE, PAGES, RENAMED};
use crash_disk::{Disk, MemDisk, MemOut, Out};
use litestream_core::Why;
use std::alloc::Global;
use std::test::Fail;

/// How many calls on the replica's disk a restore of one file of two pages makes: attach, the names, the header, then
/// each number and its page, the number 0 behind them, and the trailer, with a look at what stands behind it.
const STORE_CALLS: u64 = 10;

/// The name under which an output is written until it is whole.
const TEMPORARY: &str = "o.litestream-tmp";

/// A folder in which an earlier stop has left such a file.
fn stopped_before(alloc: Global) -> Result<MemDisk, Fail> {
    let mut target = MemDisk::new(alloc);
    target.put_file(TEMPORARY, b"old")?;
    Ok(target)
}

/// Whether that file is still there: it is where a call failed before the files of the plan were read.
fn stays(call: u64) -> Option<u64> {
    if call <= 2 { Some(3) } else { None }
}

/// Whether a restore of which the call of this number on the output's disk fails tells that, and leaves what it is to.
fn tells_target(alloc: Global, call: u64) -> Result<bool, Fail> {
    let mut store = disk_of(alloc, Replica::Whole)?;
    let mut target = stopped_before(alloc)?;
    target.fail_at(call)?;
    let mut out = MemOut::new(alloc);
    let outcome = carried_out(alloc, LINE, &mut store, &mut target, &mut out)?;
    let left: &[u8] = if call > RENAMED { &PAGES } else { &[] };
    let holds = holds(alloc, &mut target, left)?;
    let stays = target.size(TEMPORARY)? == stays(call);
    let told = outcome.why == Why::TargetFault && outcome.status == 3 && target.faults() == 1;
    Ok(told && out.bytes().is_empty() && holds && stays)
}

#[test]
fn a_failing_call_on_the_target_is_told(rt: HostRuntime) -> Result<(), Fail> {
    for before in 0..CALLS {
        assert!(rt;
            tells_target(rt.alloc(), before + 1)?,
            "behind {before} calls"
        );
    }
    Ok(())
}

/// The same of a call on the replica's disk; of one behind the last it is done.
fn tells_store(alloc: Global, call: u64) -> Result<bool, Fail> {
    let mut store = disk_of(alloc, Replica::Whole)?;
    store.fail_at(call)?;
    let mut target = stopped_before(alloc)?;
    let mut out = MemOut::new(alloc);
    let outcome = carried_out(alloc, LINE, &mut store, &mut target, &mut out)?;
    let done = call > STORE_CALLS;
    let left: &[u8] = if done { &PAGES } else { &[] };
    let holds = holds(alloc, &mut target, left)?;
    let stays = target.size(TEMPORARY)? == stays(call);
    let why = if done { Why::Done } else { Why::StoreFault };
    let status = if done { 0 } else { 3 };
    Ok(outcome.why == why && outcome.status == status && holds && stays)
}

#[test]
fn a_failing_call_on_the_store_is_told(rt: HostRuntime) -> Result<(), Fail> {
    for before in 0..=STORE_CALLS {
        assert!(rt;
            tells_store(rt.alloc(), before + 1)?,
            "behind {before} calls"
        );
    }
    Ok(())
}

#[test]
fn a_failing_output_stream_is_told(rt: HostRuntime) -> Result<(), Fail> {
    let mut store = disk_of(rt.alloc(), Replica::Whole)?;
    let mut target = MemDisk::new(rt.alloc());
    let mut out = MemOut::new(rt.alloc());
    out.fail_at(1)?;
    let outcome = carried_out(rt.alloc(), LINE, &mut store, &mut target, &mut out)?;
    assert_eq!(rt; outcome.why, Why::SinkFault);
    assert_eq!(rt; outcome.status, 3);
    assert_eq!(rt; out.bytes(), b"".as_slice());
    assert!(rt; holds(rt.alloc(), &mut target, &PAGES)?);
    Ok(())
}
