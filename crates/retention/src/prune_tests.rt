//! Seven files of which three are dropped, over a disk in memory: all goes well, a call fails, or the machine stops.
//!
//! The calls of the removal: each of the three names, and then the names are brought to the disk.

use super::*;
use crate::retained::retained_in;
use crash_disk::{Disk, DiskFault, MemDisk};
use replica_store::{Dated, list, read_name};
use std::alloc::Global;
use std::process::Abort;
use std::test::*;

/// A file: its path, its moment, and its bytes.
type File = (&'static str, u64, &'static str);

/// In list order. Two old files stay: that of transaction 3, which the chain to 4 needs, and the last that leads to 2.
const FILES: [File; 7] = [
    ("ltx/0/0000000000000001-0000000000000001.ltx", 10, "one"),
    ("ltx/0/0000000000000002-0000000000000002.ltx", 20, "two"),
    ("ltx/0/0000000000000003-0000000000000003.ltx", 30, "three"),
    ("ltx/0/0000000000000004-0000000000000004.ltx", 400, "four"),
    ("ltx/0/0000000000000005-0000000000000005.ltx", 500, "five"),
    ("ltx/1/0000000000000001-0000000000000002.ltx", 20, "one two"),
    ("ltx/9/0000000000000001-0000000000000002.ltx", 20, "whole"),
];

const CUT: u64 = 100;

/// Which files are there once so many names are removed, a 1 or a 0 for each.
const LEFT: [&[u8; 7]; 4] = [b"1111111", b"0111111", b"0011111", b"0011101"];

/// How many calls the removal makes.
const CALLS: u64 = 4;

/// A disk that has the files.
fn filled(alloc: Global) -> Result<MemDisk, Fail> {
    let mut store = MemDisk::new(alloc);
    for (path, _, bytes) in &FILES {
        store.put_file(path, bytes.as_bytes())?;
    }
    Ok(store)
}

/// What is dropped of the files.
fn dropped(alloc: Global) -> Result<Drops, Fail> {
    let mut dated = Vec::new(alloc);
    for (path, moment, _) in &FILES {
        let name = read_name(path).ok_or("no name")?;
        dated.push(Dated {
            name,
            moment: *moment,
        })?;
    }
    Ok(drops(alloc, dated.as_slice(), CUT)?)
}

/// Whether the file is there; with other bytes than its own it fails.
fn is_there(store: &mut MemDisk, file: &File) -> Result<bool, Fail> {
    let (path, _, bytes) = file;
    if store.size(path)?.is_none() {
        return Ok(false);
    }
    let mut into = [0; 8];
    let count = store.read_at(path, 0, &mut into)?;
    if &into[..count] != bytes.as_bytes() {
        return Err(Fail::from("other bytes"));
    }
    Ok(true)
}

/// Which files are there.
fn left(store: &mut MemDisk) -> Result<[u8; 7], Fail> {
    let mut left = *b"0000000";
    for i in 0..7 {
        if is_there(store, &FILES[i])? {
            left[i] = b'1';
        }
    }
    Ok(left)
}

/// Whether the protected transactions are retained in what is there: 4 and 5, which are young.
fn keeps_protected(alloc: Global, store: &mut MemDisk) -> Result<bool, Fail> {
    let names = list(alloc, store)?;
    let retained = retained_in(alloc, names.as_slice())?;
    let young = retained.iter().filter(|t| t.number() >= 4).count();
    Ok(young == 2)
}

#[test]
fn dropped_files_are_gone_for_good(rt: HostRuntime) -> Result<(), Fail> {
    let drops = dropped(rt.alloc())?;
    for choice in 0..8 {
        let mut store = filled(rt.alloc())?;
        prune(&mut store, &drops)?;
        assert_eq!(rt; &left(&mut store)?, LEFT[3], "choice {choice}");
        store.crash(choice)?;
        assert_eq!(rt; &left(&mut store)?, LEFT[3], "choice {choice}");
        let count = list(rt.alloc(), &mut store)?.as_slice().len();
        assert_eq!(rt; count, 4, "choice {choice}");
    }
    Ok(())
}

#[test]
fn a_failing_call_leaves_the_names_behind_it(rt: HostRuntime) -> Result<(), Fail> {
    let drops = dropped(rt.alloc())?;
    for (done, wanted) in LEFT.iter().enumerate() {
        let mut store = filled(rt.alloc())?;
        store.fail_at(done as u64 + 1)?;
        assert_eq!(rt; prune(&mut store, &drops), Err(DiskFault), "{done} done");
        assert_eq!(rt; store.faults(), 1, "{done} done");
        assert_eq!(rt; &left(&mut store)?, *wanted, "{done} done");
        prune(&mut store, &drops)?;
        assert_eq!(rt; &left(&mut store)?, LEFT[3], "{done} done, and again");
    }
    Ok(())
}

/// Whether a stop after so many calls and a crash by the choice leave these files. Choice 0 takes no name away before
/// the names were brought to the disk, choices 1 and 2 take all that were removed, and the others some of those.
fn is_left(left: &[u8; 7], calls: u64, choice: u64) -> bool {
    let removed = LEFT[(calls as usize).min(3)];
    if calls == CALLS || choice == 1 || choice == 2 {
        return left == removed;
    }
    if choice == 0 {
        return left == LEFT[0];
    }
    left.iter()
        .zip(removed)
        .all(|(there, least)| there >= least)
}

/// A removal that stops after so many calls, and a crash by the choice.
fn check_stop(
    rt: &impl Abort,
    alloc: Global,
    drops: &Drops,
    calls: u64,
    choice: u64,
) -> Result<(), Fail> {
    let mut store = filled(alloc)?;
    store.stop_after(calls);
    let done = prune(&mut store, drops).is_ok();
    assert_eq!(rt; done, calls == CALLS, "stop after {calls}");
    store.crash(choice)?;
    assert!(rt;
        keeps_protected(alloc, &mut store)?,
        "stop after {calls}, choice {choice}"
    );
    assert!(rt;
        is_left(&left(&mut store)?, calls, choice),
        "stop after {calls}, choice {choice}"
    );
    Ok(())
}

#[test]
fn a_stop_leaves_the_protected_transactions(rt: HostRuntime) -> Result<(), Fail> {
    let drops = dropped(rt.alloc())?;
    for case in 0..40 {
        check_stop(&rt, rt.alloc(), &drops, case / 8, case % 8)?;
    }
    Ok(())
}
