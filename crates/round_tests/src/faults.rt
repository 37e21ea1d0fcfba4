//! Rounds that are refused.

use crate::content::{Frame, database, log_of};
use crate::failing_live::FailingLive;
use crate::files::{File, has_count, put_file};
use crash_disk::{Disk, MemDisk};
use db_page::HeaderFault;
use live_gate::StillLive;
use ltx_format::LtxFault;
use replica_round::{Round, RoundStop, round};
use replica_store::{Damage, read_name};
use std::alloc::Global;
use std::test::*;
use wal_follow::{FollowFault, Follower};

/// A commit of page 1.
const COMMIT: [Frame; 1] = [Frame {
    number: 1,
    commit: 1,
    fill: 0x11,
    sums: 0xf5e8_c4fe_d7a6_7fb6,
}];

/// How many calls a round of that commit makes on the live database, and how many on an empty replica.
const LIVE_CALLS: u64 = 10;

const STORE_CALLS: u64 = 7;

/// A file of the last transaction that there can be.
const LAST: File = File {
    path: "ltx/9/0000000000000001-ffffffffffffffff.ltx",
    header: [
        0x4c54_5831_0000_0002,
        0x0000_0200_0000_0001,
        1,
        0xffff_ffff_ffff_ffff,
        0,
        0,
        0,
        0,
        0,
        0,
        0x8000_0000_0000_0000,
    ],
    pages: &[(1, 0)],
    sum: 0,
};

/// The live database with the commit, of which so many calls succeed.
fn live_of(alloc: Global, calls_left: u64) -> Result<FailingLive, Fail> {
    let log = log_of(alloc, &COMMIT, 1, 0)?;
    let live = StillLive::new(alloc, &database(alloc)?, &log)?;
    Ok(FailingLive { live, calls_left })
}

/// What a first round answers.
fn answer(alloc: Global, live: &mut FailingLive, store: &mut MemDisk) -> Result<Round, RoundStop> {
    let mut follower = Follower::start(alloc, None);
    round(alloc, live, store, &mut follower, 0, 0)
}

/// What one answers that is to be refused.
fn stop_of(alloc: Global, live: &mut FailingLive, store: &mut MemDisk) -> Result<RoundStop, Fail> {
    match answer(alloc, live, store) {
        Ok(_) => Err("a round is to be refused")?,
        Err(stop) => Ok(stop),
    }
}

#[test]
fn each_call_on_the_live_database_may_fail(rt: HostRuntime) -> Result<(), Fail> {
    for calls in 0..LIVE_CALLS {
        let mut store = MemDisk::new(rt.alloc());
        let mut live = live_of(rt.alloc(), calls)?;
        let stop = stop_of(rt.alloc(), &mut live, &mut store)?;
        let failed = matches!(stop, RoundStop::Follow(FollowFault::Live(_)));
        assert!(rt; failed, "behind {calls} calls");
    }
    let mut store = MemDisk::new(rt.alloc());
    let mut live = live_of(rt.alloc(), LIVE_CALLS)?;
    assert!(rt; answer(rt.alloc(), &mut live, &mut store).is_ok());
    assert_eq!(rt; live.calls_left, 0);
    Ok(())
}

#[test]
fn each_call_on_the_replica_may_fail(rt: HostRuntime) -> Result<(), Fail> {
    for call in 1..STORE_CALLS + 1 {
        let mut store = MemDisk::new(rt.alloc());
        store.fail_at(call)?;
        let mut live = live_of(rt.alloc(), u64::MAX)?;
        let stop = stop_of(rt.alloc(), &mut live, &mut store)?;
        assert!(rt; matches!(stop, RoundStop::Store(_)), "call {call}");
        assert_eq!(rt; store.faults(), 1, "call {call}");
    }
    let mut store = MemDisk::new(rt.alloc());
    store.fail_at(STORE_CALLS + 1)?;
    let mut live = live_of(rt.alloc(), u64::MAX)?;
    assert!(rt; answer(rt.alloc(), &mut live, &mut store).is_ok());
    Ok(())
}

#[test]
fn no_transaction_comes_behind_the_last(rt: HostRuntime) -> Result<(), Fail> {
    let mut store = MemDisk::new(rt.alloc());
    put_file(rt.alloc(), &mut store, &LAST)?;
    let mut live = live_of(rt.alloc(), u64::MAX)?;
    let stop = stop_of(rt.alloc(), &mut live, &mut store)?;
    assert_eq!(rt; stop, RoundStop::TxidSpent);
    has_count(&rt, rt.alloc(), &mut store, 1)
}

#[test]
fn a_damaged_header_and_a_file_that_is_no_database_are_told(rt: HostRuntime) -> Result<(), Fail> {
    let mut store = MemDisk::new(rt.alloc());
    put_file(rt.alloc(), &mut store, &LAST)?;
    let path = "ltx/9/0000000000000001-0000000000000001.ltx";
    store.put_file(path, b"LTX1")?;
    let mut live = live_of(rt.alloc(), u64::MAX)?;
    let name = read_name(path).ok_or("a name")?;
    let short = RoundStop::Damaged(name, Damage::File(LtxFault::Short));
    assert_eq!(rt; stop_of(rt.alloc(), &mut live, &mut store)?, short);
    let empty = StillLive::new(rt.alloc(), b"", b"")?;
    let mut live = FailingLive {
        live: empty,
        calls_left: u64::MAX,
    };
    let header = RoundStop::Follow(FollowFault::Header(HeaderFault::Short(0)));
    let mut store = MemDisk::new(rt.alloc());
    assert_eq!(rt; stop_of(rt.alloc(), &mut live, &mut store)?, header);
    Ok(())
}
