//! A replica whose upkeep was worked out by hand, and what a disk has of it.

use crate::file::{Made, bytes_of};
use crash_disk::{Disk, MemDisk};
use replica_store::{dated, get, list, read_name};
use replica_upkeep::{Upkeep, UpkeepStop, maintain};
use std::alloc::Global;
use std::test::Fail;

/// A day in milliseconds.
pub const DAY: u64 = 86_400_000;

/// The time of the upkeep, 13600 seconds past a day.
pub const NOW: u64 = 100_000_000;

pub const SECOND: Made = Made {
    path: "ltx/0/0000000000000002-0000000000000002.ltx",
    min: 2,
    max: 2,
    moment: 2_000,
    first: None,
    second: 0x22,
    index: false,
};

pub const THIRD: Made = Made {
    path: "ltx/0/0000000000000003-0000000000000003.ltx",
    min: 3,
    max: 3,
    moment: 20_000_000,
    first: None,
    second: 0x33,
    index: false,
};

pub const WHOLE: Made = Made {
    path: "ltx/9/0000000000000001-0000000000000001.ltx",
    min: 1,
    max: 1,
    moment: 1_000,
    first: Some(0x11),
    second: 0x12,
    index: false,
};

/// The second and the third in one.
pub const BOTH: Made = Made {
    path: "ltx/1/0000000000000002-0000000000000003.ltx",
    min: 2,
    index: true,
    ..THIRD
};

/// All three in one.
pub const ALL: Made = Made {
    path: "ltx/9/0000000000000001-0000000000000003.ltx",
    min: 1,
    first: Some(0x11),
    index: true,
    ..THIRD
};

/// What stands before.
pub const FILES: [Made; 3] = [SECOND, THIRD, WHOLE];

/// What is left: one file for each of the levels 1, 2, 3 and 9 was added, and the two old ones are gone.
pub const LEFT: [Made; 5] = [
    THIRD,
    BOTH,
    Made {
        path: "ltx/2/0000000000000002-0000000000000003.ltx",
        ..BOTH
    },
    Made {
        path: "ltx/3/0000000000000002-0000000000000003.ltx",
        ..BOTH
    },
    ALL,
];

/// A disk that has the files.
pub fn filled(alloc: Global, files: &[Made]) -> Result<MemDisk, Fail> {
    let mut store = MemDisk::new(alloc);
    for made in files {
        store.put_file(made.path, &bytes_of(alloc, made)?)?;
    }
    Ok(store)
}

/// The upkeep of what is there.
pub fn keep_up(
    alloc: Global,
    store: &mut MemDisk,
    now: u64,
) -> Result<Result<Upkeep, UpkeepStop>, Fail> {
    let names = list(alloc, store)?;
    let files = dated(alloc, store, names.as_slice())?;
    Ok(maintain(alloc, store, files, DAY, now))
}

/// Whether the file is there; with other bytes than its own it fails.
pub fn is_there(alloc: Global, store: &mut MemDisk, made: &Made) -> Result<bool, Fail> {
    if store.size(made.path)?.is_none() {
        return Ok(false);
    }
    let name = read_name(made.path).ok_or("a name")?;
    let found = get(alloc, store, &name)?;
    if found.as_slice() != bytes_of(alloc, made)?.as_slice() {
        return Err(Fail::from("other bytes"));
    }
    Ok(true)
}

/// How many of the files are there.
fn count_of(alloc: Global, store: &mut MemDisk, files: &[Made]) -> Result<usize, Fail> {
    let mut count = 0;
    for made in files {
        if is_there(alloc, store, made)? && count < files.len() {
            count += 1;
        }
    }
    Ok(count)
}

/// Whether exactly these files are there.
pub fn has_exactly(alloc: Global, store: &mut MemDisk, files: &[Made]) -> Result<bool, Fail> {
    let listed = list(alloc, store)?.as_slice().len();
    Ok(count_of(alloc, store, files)? == files.len() && listed == files.len())
}

/// Whether nothing but files of the upkeep is there, with their bytes, and they lead to the third transaction.
pub fn is_sound(alloc: Global, store: &mut MemDisk) -> Result<bool, Fail> {
    let listed = list(alloc, store)?.as_slice().len();
    let old = count_of(alloc, store, &[SECOND, WHOLE])?;
    let new = count_of(alloc, store, &LEFT)?;
    let leads = old == 2 || is_there(alloc, store, &ALL)?;
    Ok(leads && is_there(alloc, store, &THIRD)? && old.checked_add(new) == Some(listed))
}
