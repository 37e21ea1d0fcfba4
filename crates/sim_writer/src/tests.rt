use super::*;
use live_gate::{Live, LiveFault};
use ls_base::{ChangePages, Page, PageSize, Pages};
use ls_sums::Order;
use std::alloc::Global;
use std::test::Fail;

/// A writer whose database file is one page of ones.
fn begun(alloc: Global) -> Result<SimLive, Fail> {
    let size = PageSize::from_u32(512).ok_or("512 is a page size")?;
    let mut first = Pages::new(alloc);
    first.push(Page::copied(alloc, &[1; 512])?)?;
    Ok(SimLive::new(alloc, "db", size, Order::Big, (1, 2), &first)?)
}

/// A commit of one page of so many bytes.
fn commit(alloc: Global, number: u32, bytes: &[u8], size: u32) -> Result<Act, Fail> {
    let mut pages = ChangePages::new(alloc);
    pages.put(number, Page::copied(alloc, bytes)?)?;
    Ok(Act::Commit { pages, size })
}

#[test]
fn legal_commits_alone_stand_in_the_log(rt: HostRuntime) -> Result<(), Fail> {
    let alloc = rt.alloc();
    let mut live = begun(alloc)?;
    for (number, bytes, size, done) in [
        (2, [2; 512].as_slice(), 2, true),
        (0, [3; 512].as_slice(), 2, false),
        (3, [4; 512].as_slice(), 2, false),
        (1, [5; 511].as_slice(), 2, false),
        (1, [6; 512].as_slice(), 2, true),
    ] {
        assert_eq!(rt;
            live.act(commit(alloc, number, bytes, size)?)?,
            done,
            "page {number}"
        );
    }
    assert_eq!(rt;
        (live.skipped(), live.history().len(), live.chances()),
        (3, 3, 0)
    );
    let mut last = [0; 3];
    live.aim(1102)?;
    assert_eq!(rt;
        (live.wal_size()?, live.read(&mut last)?, last),
        (1104, 2, [6, 6, 0])
    );
    Ok(())
}

#[test]
fn a_fault_fails_the_next_call_alone(rt: HostRuntime) -> Result<(), Fail> {
    let mut live = begun(rt.alloc())?;
    assert!(rt; live.act(Act::Fault)?);
    assert_eq!(rt; live.db_size(), Err(LiveFault));
    assert_eq!(rt;
        (live.db_size()?, live.faults(), live.starved()),
        (512, 1, 0)
    );
    Ok(())
}
