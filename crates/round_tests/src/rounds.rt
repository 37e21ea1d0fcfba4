//! Rounds over the log of a small database: the line of each, and the files that it leaves.

use crate::content::{Frame, database, log_of, push_frames};
use crate::files::{File, has_count, has_file};
use crate::steps::two_rounds;
use crash_disk::MemDisk;
use live_gate::StillLive;
use round_line::round_line;
use std::alloc::Global;
use std::process::Abort;
use std::test::*;

/// 2023-11-14T22:13:20Z.
const NOW: u64 = 1_700_000_000_000;

/// One commit of two pages, and three commits of page 2.
const FRAMES: [Frame; 5] = [
    Frame {
        number: 1,
        commit: 0,
        fill: 0x11,
        sums: 0x4709_9a39_8cfa_b4d4,
    },
    Frame {
        number: 2,
        commit: 2,
        fill: 0x22,
        sums: 0xdfdb_b9ce_d7a6_1ac1,
    },
    Frame {
        number: 2,
        commit: 2,
        fill: 0x33,
        sums: 0xbdbd_e5e4_acfd_efcf,
    },
    Frame {
        number: 2,
        commit: 2,
        fill: 0x44,
        sums: 0x5f74_f963_e0e5_9aad,
    },
    Frame {
        number: 2,
        commit: 2,
        fill: 0x55,
        sums: 0xb870_bc44_4af7_245a,
    },
];

/// Two frames behind the first commit that don't commit.
const LOOSE: [Frame; 2] = [
    Frame {
        number: 1,
        commit: 0,
        fill: 0x33,
        sums: 0x5303_7f8f_14a2_404e,
    },
    Frame {
        number: 2,
        commit: 0,
        fill: 0x44,
        sums: 0x9052_48a8_db4c_3e6d,
    },
];

/// The whole state of the first commit.
const WHOLE: File = File {
    path: "ltx/9/0000000000000001-0000000000000001.ltx",
    header: [
        0x4c54_5831_0000_0002,
        0x0000_0200_0000_0002,
        1,
        1,
        1_700_000_000_000,
        0,
        32,
        1072,
        0x0000_0001_0000_0002,
        0,
        0xdfdb_b9ce_d7a6_1ac1,
    ],
    pages: &[(1, 0x11), (2, 0x22)],
    sum: 0x92a3_9f38_d8f9_6e51,
};

/// The piece of the three commits, a second later.
const PIECE: File = File {
    path: "ltx/0/0000000000000002-0000000000000002.ltx",
    header: [
        0x4c54_5831_0000_0002,
        0x0000_0200_0000_0002,
        2,
        2,
        1_700_000_001_000,
        0,
        32,
        2680,
        0x0000_0001_0000_0002,
        0,
        0xb870_bc44_4af7_245a,
    ],
    pages: &[(2, 0x55)],
    sum: 0xcbb1_13b5_b751_2ac3,
};

/// The piece of the first of them, with the moment of the file before it.
const EARLY: File = File {
    path: "ltx/0/0000000000000002-0000000000000002.ltx",
    header: [
        0x4c54_5831_0000_0002,
        0x0000_0200_0000_0002,
        2,
        2,
        1_700_000_000_000,
        0,
        32,
        1608,
        0x0000_0001_0000_0002,
        0,
        0xbdbd_e5e4_acfd_efcf,
    ],
    pages: &[(2, 0x33)],
    sum: 0x88c9_b174_3e19_b8b3,
};

/// The state of the database file alone.
const AT_REST: File = File {
    path: "ltx/9/0000000000000001-0000000000000001.ltx",
    header: [
        0x4c54_5831_0000_0002,
        0x0000_0200_0000_0001,
        1,
        1,
        1_700_000_000_000,
        0,
        0,
        0,
        0,
        0,
        0xf1c5_1d70_baef_2094,
    ],
    pages: &[(1, 0)],
    sum: 0xe1a6_d9a6_9849_43ba,
};

const WHOLE_LINE: &[u8] =
    b"round 1 whole ltx/9/0000000000000001-0000000000000001.ltx passed 0 merged 0 dropped 0 lost 0\n";

const PIECE_LINE: &[u8] =
    b"round 1 piece ltx/0/0000000000000002-0000000000000002.ltx passed 0 merged 0 dropped 0 lost 0\n";

const SAME_LINE: &[u8] = b"round 1 same - passed 0 merged 0 dropped 0 lost 0\n";

const LAST_LINE: &[u8] = b"round 2 same - passed 0 merged 0 dropped 0 lost 0\n";

/// A run of two rounds over the log: the first has this line, and the second stores nothing.
fn run(
    rt: &impl Abort,
    alloc: Global,
    store: &mut MemDisk,
    log: &[u8],
    now: u64,
    line: &[u8],
) -> Result<(), Fail> {
    let mut live = StillLive::new(alloc, &database(alloc)?, log)?;
    let (first, second) = two_rounds(alloc, &mut live, store, now)?;
    assert!(rt; round_line(1, &first).as_slice() == line);
    assert!(rt; round_line(2, &second).as_slice() == LAST_LINE);
    Ok(())
}

/// A run over a log of so many of the frames.
fn run_to(
    rt: &impl Abort,
    alloc: Global,
    store: &mut MemDisk,
    frames: usize,
    now: u64,
    line: &[u8],
) -> Result<(), Fail> {
    let log = log_of(alloc, &FRAMES, frames, 0)?;
    run(rt, alloc, store, log.as_slice(), now, line)
}

/// A replica with the whole state of the first commit.
fn begun(rt: &impl Abort, alloc: Global) -> Result<MemDisk, Fail> {
    let mut store = MemDisk::new(alloc);
    run_to(rt, alloc, &mut store, 2, NOW, WHOLE_LINE)?;
    has_file(rt, alloc, &mut store, &WHOLE)?;
    Ok(store)
}

#[test]
fn what_changed_is_stored(rt: HostRuntime) -> Result<(), Fail> {
    let mut store = begun(&rt, rt.alloc())?;
    run_to(&rt, rt.alloc(), &mut store, 2, NOW, SAME_LINE)?;
    has_count(&rt, rt.alloc(), &mut store, 1)?;
    run_to(&rt, rt.alloc(), &mut store, 5, NOW + 1000, PIECE_LINE)?;
    has_file(&rt, rt.alloc(), &mut store, &WHOLE)?;
    has_file(&rt, rt.alloc(), &mut store, &PIECE)?;
    has_count(&rt, rt.alloc(), &mut store, 2)
}

#[test]
fn a_clock_that_went_back_is_not_believed(rt: HostRuntime) -> Result<(), Fail> {
    let mut store = begun(&rt, rt.alloc())?;
    run_to(&rt, rt.alloc(), &mut store, 3, NOW - 5000, PIECE_LINE)?;
    has_file(&rt, rt.alloc(), &mut store, &EARLY)?;
    has_count(&rt, rt.alloc(), &mut store, 2)
}

#[test]
fn frames_that_do_not_commit_are_not_stored(rt: HostRuntime) -> Result<(), Fail> {
    let mut store = MemDisk::new(rt.alloc());
    let mut log = log_of(rt.alloc(), &FRAMES, 2, 0)?;
    push_frames(&mut log, &LOOSE, 2)?;
    run(&rt, rt.alloc(), &mut store, log.as_slice(), NOW, WHOLE_LINE)?;
    has_file(&rt, rt.alloc(), &mut store, &WHOLE)?;
    has_count(&rt, rt.alloc(), &mut store, 1)
}

#[test]
fn a_commit_that_was_cut_is_not_stored(rt: HostRuntime) -> Result<(), Fail> {
    let mut store = MemDisk::new(rt.alloc());
    let log = log_of(rt.alloc(), &FRAMES, 3, 1)?;
    run(&rt, rt.alloc(), &mut store, log.as_slice(), NOW, WHOLE_LINE)?;
    has_file(&rt, rt.alloc(), &mut store, &WHOLE)?;
    has_count(&rt, rt.alloc(), &mut store, 1)
}

#[test]
fn a_database_at_rest_is_stored_whole(rt: HostRuntime) -> Result<(), Fail> {
    let mut store = MemDisk::new(rt.alloc());
    run_to(&rt, rt.alloc(), &mut store, 0, NOW, WHOLE_LINE)?;
    has_file(&rt, rt.alloc(), &mut store, &AT_REST)?;
    has_count(&rt, rt.alloc(), &mut store, 1)
}
