//! A pass over the log of a database that nobody else has open.

use crate::content::{MOMENT, put_page};
use crash_disk::{MemDisk, MemOut};
use live_gate::Live;
use ls_answers::Why;
use ls_base::{ChangePages, Page, PageSize, Pages, Place};
use ls_sums::Order;
use replica_store::{header_of, read_name};
use replicate_command::{Request, replicate};
use sim_writer::{Act, SimLive};
use std::alloc::Global;
use std::test::Fail;

const PIECE_AND_PASS: &str =
    "round 1 piece ltx/0/0000000000000002-0000000000000002.ltx passed 1 merged 0 dropped 0 lost 0\n\
round 2 same - passed 0 merged 0 dropped 0 lost 0\n";

const WHOLE_AT_REST: &str = "ltx/9/0000000000000001-0000000000000003.ltx";

const WHOLE_LINE: &str =
    "round 1 whole ltx/9/0000000000000001-0000000000000003.ltx passed 0 merged 0 dropped 0 lost 0\n";

/// A page filled with the byte; the first is one of a database in WAL mode.
pub fn page_of(alloc: Global, number: u32, fill: u8) -> Result<Page, Fail> {
    let mut bytes = Vec::new(alloc);
    put_page(&mut bytes, number, fill)?;
    Ok(Page::copied(alloc, &bytes)?)
}

/// Commits the second page, and the first one too where it is asked for.
fn commit(alloc: Global, live: &mut SimLive, both: bool, fill: u8) -> Result<bool, Fail> {
    let mut pages = ChangePages::new(alloc);
    if both {
        pages.put(1, page_of(alloc, 1, 0x11)?)?;
    }
    pages.put(2, page_of(alloc, 2, fill)?)?;
    Ok(live.act(Act::Commit { pages, size: 2 })?)
}

/// A database whose first commit stands in its file and in its log.
pub fn begun(alloc: Global) -> Result<SimLive, Fail> {
    let size = PageSize::from_u32(512).ok_or("512 is a page size")?;
    let mut first = Pages::new(alloc);
    first.push(Page::copied(alloc, &[1; 512])?)?;
    let mut live = SimLive::new(alloc, "db", size, Order::Big, (1, 2), &first)?;
    if !commit(alloc, &mut live, true, 0x22)? || !live.act(Act::Backfill { mark: 1 })? {
        Err("the acts are legal")?;
    }
    Ok(live)
}

/// So many more commits of the second page.
fn commit_more(alloc: Global, live: &mut SimLive, count: u32) -> Result<(), Fail> {
    for at in 0..count {
        let _ = commit(alloc, live, false, (at % 200) as u8)?;
    }
    Ok(())
}

/// Whether a run answers Done and prints this.
pub fn prints(
    alloc: Global,
    live: &mut SimLive,
    store: &mut MemDisk,
    rounds: u32,
    now: u64,
    text: &str,
) -> Result<bool, Fail> {
    let mut out = MemOut::new(alloc);
    let request = Request {
        db: "db",
        replica: "replica",
        rounds,
        keep: 86_400_000,
        at_rest: true,
    };
    let why = replicate(alloc, &request, now, live, store, &mut out);
    Ok(why == Why::Done && out.bytes() == text.as_bytes())
}

pub const FIRST: &str =
    "round 1 whole ltx/9/0000000000000001-0000000000000001.ltx passed 0 merged 0 dropped 0 lost 0\n";

/// Whether the pass comes in the round that finds so many more frames behind the two of the first commit.
fn passes_at(
    alloc: Global,
    live: &mut SimLive,
    store: &mut MemDisk,
    more: u32,
) -> Result<bool, Fail> {
    let first = prints(alloc, live, store, 1, MOMENT, FIRST)?;
    commit_more(alloc, live, more)?;
    let passed = prints(alloc, live, store, 2, MOMENT + 1_000, PIECE_AND_PASS)?;
    Ok(first && passed && live.wal_size()? == 0)
}

#[test]
fn a_log_of_1000_frames_is_emptied_once(rt: HostRuntime) -> Result<(), Fail> {
    let mut live = begun(rt.alloc())?;
    let mut store = MemDisk::new(rt.alloc());
    assert!(rt; passes_at(rt.alloc(), &mut live, &mut store, 998)?);
    Ok(())
}

#[test]
fn a_log_of_999_frames_is_left(rt: HostRuntime) -> Result<(), Fail> {
    let mut live = begun(rt.alloc())?;
    let mut store = MemDisk::new(rt.alloc());
    assert!(rt; !passes_at(rt.alloc(), &mut live, &mut store, 997)?);
    Ok(())
}

/// Whether a run behind a pass, with no commit, stores the whole database at rest.
fn rests_behind(alloc: Global, live: &mut SimLive, store: &mut MemDisk) -> Result<bool, Fail> {
    let first = prints(alloc, live, store, 1, MOMENT, FIRST)?;
    commit_more(alloc, live, 998)?;
    let passed = prints(alloc, live, store, 2, MOMENT + 1_000, PIECE_AND_PASS)?;
    let whole = prints(alloc, live, store, 1, MOMENT + 1_000, WHOLE_LINE)?;
    let name = read_name(WHOLE_AT_REST).ok_or("a name")?;
    let rests = matches!(header_of(store, &name)?.place, Place::Rest { .. });
    Ok(first && passed && whole && rests && live.skipped() == 0 && live.chances() == 0)
}

#[test]
fn behind_a_pass_the_next_run_stores_the_whole_database(rt: HostRuntime) -> Result<(), Fail> {
    let mut live = begun(rt.alloc())?;
    let mut store = MemDisk::new(rt.alloc());
    assert!(rt; rests_behind(rt.alloc(), &mut live, &mut store)?);
    Ok(())
}
