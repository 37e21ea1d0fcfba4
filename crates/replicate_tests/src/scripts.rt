//! Runs beside a writer that goes on between them: it shrinks and grows, begins its log anew, and stops.

use crate::content::MOMENT;
use crate::passing::{FIRST, begun, page_of, prints};
use crash_disk::{Disk, MemDisk};
use live_gate::Live;
use ls_base::{Bytes, ChangePages};
use replica_store::{get, read_name};
use sim_writer::{Act, SimLive};
use std::alloc::Global;
use std::test::Fail;

/// A page and the byte that fills it.
type Filled = (u32, u8);

/// Commits the pages, after which the database has so many.
fn commit_all(
    alloc: Global,
    live: &mut SimLive,
    filled: &[Filled],
    size: u32,
) -> Result<bool, Fail> {
    let mut pages = ChangePages::new(alloc);
    for (number, fill) in filled {
        pages.put(*number, page_of(alloc, *number, *fill)?)?;
    }
    Ok(live.act(Act::Commit { pages, size })?)
}

/// Whether the replica's file has so many bytes, and its last page is one of this byte; 22 bytes stand behind it.
fn ends_with(
    alloc: Global,
    store: &mut MemDisk,
    path: &str,
    size: u64,
    fill: u8,
) -> Result<bool, Fail> {
    let name = read_name(path).ok_or("a name")?;
    let bytes = get(alloc, store, &name)?;
    let last = bytes.as_slice().iter().rev().nth(22).copied();
    Ok(store.size(path)? == Some(size) && last == Some(fill))
}

const EIGHT: [Filled; 8] = [
    (1, 0x11),
    (2, 0x22),
    (3, 0x33),
    (4, 0x44),
    (5, 0x55),
    (6, 0x66),
    (7, 0x77),
    (8, 0x88),
];

const PIECE: &str =
    "round 1 piece ltx/0/0000000000000002-0000000000000002.ltx passed 0 merged 0 dropped 0 lost 0\n";

const THIRD: &str =
    "round 1 whole ltx/9/0000000000000001-0000000000000003.ltx passed 0 merged 0 dropped 0 lost 0\n";

const FOURTH: &str =
    "round 1 piece ltx/0/0000000000000004-0000000000000004.ltx passed 0 merged 0 dropped 0 lost 0\n";

const WHOLE_PATH: &str = "ltx/9/0000000000000001-0000000000000001.ltx";

const PIECE_PATH: &str = "ltx/0/0000000000000002-0000000000000002.ltx";

const THIRD_PATH: &str = "ltx/9/0000000000000001-0000000000000003.ltx";

/// Whether pages that went and came back are in the piece behind it.
fn comes_back(alloc: Global, live: &mut SimLive, store: &mut MemDisk) -> Result<bool, Fail> {
    let grown = commit_all(alloc, live, &EIGHT, 8)?;
    let first = prints(alloc, live, store, 1, MOMENT, FIRST)?;
    let whole = ends_with(alloc, store, WHOLE_PATH, 4266, 0x88)?;
    let cut = commit_all(alloc, live, &[(1, 0x12)], 5)?;
    let back = commit_all(alloc, live, &[(1, 0x13), (6, 0x67), (8, 0x89)], 8)?;
    let second = prints(alloc, live, store, 1, MOMENT, PIECE)?;
    let piece = ends_with(alloc, store, PIECE_PATH, 2194, 0x89)?;
    Ok(grown && first && whole && cut && back && second && piece)
}

#[test]
fn pages_that_went_and_came_back_are_in_the_piece(rt: HostRuntime) -> Result<(), Fail> {
    let mut live = begun(rt.alloc())?;
    let mut store = MemDisk::new(rt.alloc());
    assert!(rt; comes_back(rt.alloc(), &mut live, &mut store)?);
    Ok(())
}

/// Three commits of the second page, stored as one piece behind the first file.
fn with_piece(alloc: Global, live: &mut SimLive, store: &mut MemDisk) -> Result<bool, Fail> {
    let first = prints(alloc, live, store, 1, MOMENT, FIRST)?;
    let one = commit_all(alloc, live, &[(2, 0x33)], 2)?;
    let two = commit_all(alloc, live, &[(2, 0x44)], 2)?;
    let three = commit_all(alloc, live, &[(2, 0x55)], 2)?;
    let piece = prints(alloc, live, store, 1, MOMENT + 1_000, PIECE)?;
    Ok(first && one && two && three && piece)
}

/// Whether the whole state is stored behind a log that began anew, and then pieces again.
fn begins_anew(alloc: Global, live: &mut SimLive, store: &mut MemDisk) -> Result<bool, Fail> {
    let before = with_piece(alloc, live, store)?;
    let copied = live.act(Act::Backfill { mark: 4 })?;
    let anew = live.act(Act::Restart { salt2: 9 })?;
    let next = commit_all(alloc, live, &[(2, 0x66)], 2)?;
    let long = live.wal_size()? == 2_712;
    let whole = prints(alloc, live, store, 1, MOMENT + 2_000, THIRD)?;
    let last = commit_all(alloc, live, &[(2, 0x77)], 2)?;
    let piece = prints(alloc, live, store, 1, MOMENT + 3_000, FOURTH)?;
    let calm = live.chances() == 0 && live.skipped() == 0;
    Ok(before && copied && anew && next && long && whole && last && piece && calm)
}

#[test]
fn behind_a_log_that_began_anew_the_whole_state_is_stored(rt: HostRuntime) -> Result<(), Fail> {
    let mut live = begun(rt.alloc())?;
    let mut store = MemDisk::new(rt.alloc());
    assert!(rt; begins_anew(rt.alloc(), &mut live, &mut store)?);
    Ok(())
}

/// Whether what a stop of the machine took is not in the next file.
fn falls_back(alloc: Global, live: &mut SimLive, store: &mut MemDisk) -> Result<bool, Fail> {
    let first = prints(alloc, live, store, 1, MOMENT, FIRST)?;
    let more = commit_all(alloc, live, &[(1, 0x12), (2, 0x33)], 2)?;
    let piece = prints(alloc, live, store, 1, MOMENT, PIECE)?;
    let mut torn = Bytes::new(alloc);
    torn.extend(&[0; 536])?;
    let stopped = live.act(Act::Stop {
        mark: 1,
        tail: torn,
    })?;
    let third = prints(alloc, live, store, 1, MOMENT, THIRD)?;
    let older = ends_with(alloc, store, THIRD_PATH, 1158, 0x22)?;
    Ok(first && more && piece && stopped && third && older)
}

#[test]
fn what_a_stop_of_the_machine_took_is_not_in_the_next_file(rt: HostRuntime) -> Result<(), Fail> {
    let mut live = begun(rt.alloc())?;
    let mut store = MemDisk::new(rt.alloc());
    assert!(rt; falls_back(rt.alloc(), &mut live, &mut store)?);
    Ok(())
}
