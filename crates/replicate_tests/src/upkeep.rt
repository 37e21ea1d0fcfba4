//! Runs that merge and drop, by lists that were worked out by hand.

use crate::content::{MOMENT, database, run};
use crash_disk::{Disk, MemDisk, MemOut};
use ls_answers::Why;
use ls_sums::Crc64;
use replica_store::list;
use std::alloc::{AllocError, Global};
use std::process::Abort;
use std::test::Fail;

/// A file of a database of two pages, as of its first commit: page 2, and page 1 where it begins with transaction 1.
#[derive(Clone, Copy)]
struct Made {
    path: &'static str,
    min: u64,
    max: u64,
    /// In milliseconds since 1970-01-01T00:00:00Z.
    moment: u64,
}

/// Pieces of which the fourth is missing, with the whole database as of 4.
const GAP: [Made; 6] = [
    Made {
        path: "ltx/0/0000000000000002-0000000000000002.ltx",
        min: 2,
        max: 2,
        moment: MOMENT + 1_000,
    },
    Made {
        path: "ltx/0/0000000000000003-0000000000000003.ltx",
        min: 3,
        max: 3,
        moment: MOMENT + 2_000,
    },
    Made {
        path: "ltx/9/0000000000000001-0000000000000004.ltx",
        min: 1,
        max: 4,
        moment: MOMENT + 3_000,
    },
    Made {
        path: "ltx/0/0000000000000005-0000000000000005.ltx",
        min: 5,
        max: 5,
        moment: MOMENT + 4_000,
    },
    Made {
        path: "ltx/0/0000000000000006-0000000000000006.ltx",
        min: 6,
        max: 6,
        moment: MOMENT + 5_000,
    },
    Made {
        path: "ltx/9/0000000000000001-0000000000000001.ltx",
        min: 1,
        max: 1,
        moment: MOMENT,
    },
];

/// Two files that are old at 100000 s with a day of retention, and one that isn't.
const OLD: [Made; 3] = [
    Made {
        path: "ltx/0/0000000000000002-0000000000000002.ltx",
        min: 2,
        max: 2,
        moment: 2_000,
    },
    Made {
        path: "ltx/0/0000000000000003-0000000000000003.ltx",
        min: 3,
        max: 3,
        moment: 20_000_000,
    },
    Made {
        path: "ltx/9/0000000000000001-0000000000000001.ltx",
        min: 1,
        max: 1,
        moment: 1_000,
    },
];

const LATER: u64 = 100_000_000;

/// What is left of them: a file for each of the levels 1, 2, 3 and 9 was added, and the two old ones are gone.
const LEFT: [&str; 5] = [
    "ltx/0/0000000000000003-0000000000000003.ltx",
    "ltx/1/0000000000000002-0000000000000003.ltx",
    "ltx/2/0000000000000002-0000000000000003.ltx",
    "ltx/3/0000000000000002-0000000000000003.ltx",
    "ltx/9/0000000000000001-0000000000000003.ltx",
];

const MERGED_ONE: &str = "round 1 same - passed 0 merged 1 dropped 0 lost 0\n";

const MERGED_FOUR: &str = "round 1 same - passed 0 merged 4 dropped 2 lost 2\n";

/// Puts a page with its number last. The number is 1 or 2.
fn put_page(bytes: &mut Vec<u8>, number: u8, fill: u8) -> Result<(), AllocError> {
    bytes.extend_from_slice(&[0, 0, 0, number, 0, 0])?;
    bytes.extend_from_slice(&[fill; 512])
}

/// The bytes of the file. Its place is the end of the log's first commit.
fn bytes_of(alloc: Global, made: &Made) -> Result<Vec<u8>, AllocError> {
    let mut bytes = Vec::from_slice(alloc, b"LTX1\0\0\0\x02\0\0\x02\0\0\0\0\x02")?;
    bytes.extend_from_slice(&made.min.to_be_bytes())?;
    bytes.extend_from_slice(&made.max.to_be_bytes())?;
    bytes.extend_from_slice(&made.moment.to_be_bytes())?;
    bytes.extend_from_slice(&[0; 8])?;
    bytes.extend_from_slice(b"\0\0\0\0\0\0\0\x20\0\0\0\0\0\0\x04\x30\0\0\0\x01\0\0\0\x02")?;
    bytes.extend_from_slice(&[0; 8])?;
    bytes.extend_from_slice(b"\xdf\xdb\xb9\xce\xd7\xa6\x1a\xc1")?;
    bytes.extend_from_slice(&[0; 12])?;
    if made.min == 1 {
        put_page(&mut bytes, 1, 0x11)?;
    }
    put_page(&mut bytes, 2, 0x22)?;
    bytes.extend_from_slice(&[0; 14])?;
    let mut check = Crc64::new();
    check.over(&bytes);
    let sum = check.finish() | 1 << 63;
    bytes.extend_from_slice(&sum.to_be_bytes())?;
    Ok(bytes)
}

/// A replica that has the files.
fn filled(alloc: Global, files: &[Made]) -> Result<MemDisk, Fail> {
    let mut store = MemDisk::new(alloc);
    for made in files {
        store.put_file(made.path, &bytes_of(alloc, made)?)?;
    }
    Ok(store)
}

/// A run of one round over the replica, behind which nothing was committed, answers Done and prints this.
fn prints(alloc: Global, store: &mut MemDisk, now: u64, text: &str) -> Result<bool, Fail> {
    let mut live = database(alloc, 2, b"")?;
    let mut out = MemOut::new(alloc);
    let why = run(alloc, &mut live, store, &mut out, 1, now);
    Ok(why == Why::Done && out.bytes() == text.as_bytes())
}

#[test]
fn a_run_of_pieces_ends_at_a_gap_and_the_next_is_due_later(rt: HostRuntime) -> Result<(), Fail> {
    let mut store = filled(rt.alloc(), &GAP)?;
    assert!(rt; prints(rt.alloc(), &mut store, MOMENT + 20_000, MERGED_ONE)?);
    assert!(rt; store.size("ltx/1/0000000000000002-0000000000000003.ltx")? == Some(648));
    assert!(rt; prints(rt.alloc(), &mut store, MOMENT + 60_000, MERGED_ONE)?);
    assert!(rt; store.size("ltx/1/0000000000000005-0000000000000006.ltx")? == Some(648));
    Ok(())
}

/// Whether the file is there.
fn is_there(store: &mut MemDisk, path: &str) -> Result<bool, Fail> {
    Ok(store.size(path)?.is_some())
}

/// Whether exactly the files of the last list are there.
fn has_left(alloc: Global, store: &mut MemDisk) -> Result<bool, Fail> {
    for path in &LEFT {
        if !is_there(store, path)? {
            return Ok(false);
        }
    }
    Ok(list(alloc, store)?.as_slice().len() == 5)
}

#[test]
fn each_level_takes_in_a_run_and_old_files_go(rt: HostRuntime) -> Result<(), Fail> {
    let mut store = filled(rt.alloc(), &OLD)?;
    assert!(rt; prints(rt.alloc(), &mut store, LATER, MERGED_FOUR)?);
    assert!(rt; has_left(rt.alloc(), &mut store)?);
    Ok(())
}

/// Whether files lead to the third transaction.
fn leads_on(store: &mut MemDisk) -> Result<bool, Fail> {
    if is_there(store, "ltx/9/0000000000000001-0000000000000003.ltx")? {
        return Ok(true);
    }
    for made in &OLD {
        if !is_there(store, made.path)? {
            return Ok(false);
        }
    }
    Ok(true)
}

/// How many calls on the disk a run makes that merges four runs and drops two files.
const CALLS: u64 = 90;

/// Whether, behind a stop after so many calls and a crash by the choice, the third transaction can be restored, and the
/// next run ends the work.
fn is_kept(alloc: Global, calls: u64, choice: u64) -> Result<bool, Fail> {
    let mut store = filled(alloc, &OLD)?;
    store.stop_after(calls);
    let ended = prints(alloc, &mut store, LATER, MERGED_FOUR)?;
    store.crash(choice)?;
    let led = leads_on(&mut store)?;
    let mut live = database(alloc, 2, b"")?;
    let mut out = MemOut::new(alloc);
    let done = run(alloc, &mut live, &mut store, &mut out, 1, LATER) == Why::Done;
    Ok(led && done && ended == (calls >= CALLS) && has_left(alloc, &mut store)?)
}

/// Stops behind each call, with two of the choices each.
fn check_stops(rt: &impl Abort, alloc: Global, first: u64, second: u64) -> Result<(), Fail> {
    for calls in 0..CALLS + 1 {
        assert!(rt; is_kept(alloc, calls, first)?, "{calls} {first}");
        assert!(rt; is_kept(alloc, calls, second)?, "{calls} {second}");
    }
    Ok(())
}

#[test]
fn a_stop_of_the_first_pair_of_choices_keeps_the_newest(rt: HostRuntime) -> Result<(), Fail> {
    check_stops(&rt, rt.alloc(), 0, 1)
}

#[test]
fn a_stop_of_the_second_pair_of_choices_keeps_the_newest(rt: HostRuntime) -> Result<(), Fail> {
    check_stops(&rt, rt.alloc(), 2, 3)
}

#[test]
fn a_stop_of_the_third_pair_of_choices_keeps_the_newest(rt: HostRuntime) -> Result<(), Fail> {
    check_stops(&rt, rt.alloc(), 4, 5)
}

#[test]
fn a_stop_of_the_last_pair_of_choices_keeps_the_newest(rt: HostRuntime) -> Result<(), Fail> {
    check_stops(&rt, rt.alloc(), 6, 7)
}
