//! Passes over real files.

use crate::file_live::FileLive;
use live_gate::{Live, Pass};
use ls_base::Place;
use std::alloc::{AllocError, Global};
use std::fs::{self, File};
use std::io::Write;
use std::test::Fail;

/// A folder with a database, each test in one of its own.
#[derive(Clone, Copy)]
struct Folder {
    path: &'static str,
    database: &'static str,
    log: &'static str,
}

const PASSING: Folder = Folder {
    path: "file_live_passing",
    database: "file_live_passing/db",
    log: "file_live_passing/db-wal",
};

/// The gate there.
const GATE: &str = "file_live_passing/db-litestream-gate";

const KEEPING: Folder = Folder {
    path: "file_live_keeping",
    database: "file_live_keeping/db",
    log: "file_live_keeping/db-wal",
};

/// The header of a log of pages of 512 bytes, with salts 1 and 2.
const HEADER: &[u8; 32] = b"\x37\x7f\x06\x83\x00\x2d\xe2\x18\0\0\x02\0\0\0\0\0\
\0\0\0\x01\0\0\0\x02\x16\x04\xca\xd8\xbc\xdd\xa4\x93";

/// The headers of two frames: page 1, and page 2 with a commit that leaves two pages. Their sums were computed by a
/// program in another language.
const FIRST: &[u8; 24] = b"\0\0\0\x01\0\0\0\0\0\0\0\x01\0\0\0\x02\x47\x09\x9a\x39\x8c\xfa\xb4\xd4";

const SECOND: &[u8; 24] =
    b"\0\0\0\x02\0\0\0\x02\0\0\0\x01\0\0\0\x02\xdf\xdb\xb9\xce\xd7\xa6\x1a\xc1";

/// Puts a page 1 of a database in WAL mode, of which the rest is one byte again and again.
fn put_first_page(bytes: &mut Vec<u8>, fill: u8) -> Result<(), AllocError> {
    bytes.extend_from_slice(b"SQLite format 3\0\x02\0\x02\x02")?;
    bytes.extend_from_slice(&[0; 80])?;
    bytes.extend_from_slice(&[fill; 412])
}

/// The log of one commit. It ends at byte 1104.
fn log_of(alloc: Global) -> Result<Vec<u8>, AllocError> {
    let mut log = Vec::from_slice(alloc, HEADER)?;
    log.extend_from_slice(FIRST)?;
    put_first_page(&mut log, 0x11)?;
    log.extend_from_slice(SECOND)?;
    log.extend_from_slice(&[0x22; 512])?;
    Ok(log)
}

/// The database file once the frames were copied.
fn copied(alloc: Global) -> Result<Vec<u8>, AllocError> {
    let mut file = Vec::new(alloc);
    put_first_page(&mut file, 0x11)?;
    file.extend_from_slice(&[0x22; 512])?;
    Ok(file)
}

/// A database file of one page, with the log.
fn put_files(rt: HostRuntime, folder: Folder) -> Result<(), Fail> {
    let _ = fs::remove_dir_all(&rt, folder.path);
    fs::create_dir_all(&rt, folder.path)?;
    let mut file = Vec::new(rt.alloc());
    put_first_page(&mut file, 0)?;
    File::create(&rt, folder.database)?.write_all(&file)?;
    File::create(&rt, folder.log)?.write_all(&log_of(rt.alloc())?)?;
    Ok(())
}

/// The place in that log, or in another one, that ends at this byte with this first sum.
fn place(end: u64, s0: u32) -> Place {
    Place::Wal {
        salt1: 1,
        salt2: 2,
        end,
        s0,
        s1: 0xd7a6_1ac1,
    }
}

/// What a pass answers behind `attach`, `enter` and `advance` to this offset, over the files as they were put.
fn passed(
    rt: HostRuntime,
    folder: Folder,
    at_rest: bool,
    held: u64,
    place: &Place,
) -> Result<Pass, Fail> {
    put_files(rt, folder)?;
    let mut live = FileLive::new(rt);
    live.attach(rt.alloc(), folder.database, at_rest)?;
    live.enter()?;
    live.advance(held)?;
    let pass = live.pass(rt.alloc(), place)?;
    if live.faults() != 0 {
        return Err(Fail::from("no fault"));
    }
    Ok(pass)
}

#[test]
fn a_pass_copies_the_log_and_empties_it(rt: HostRuntime) -> Result<(), Fail> {
    let pass = passed(rt, PASSING, true, 1104, &place(1104, 0xdfdb_b9ce))?;
    assert_eq!(rt; pass, Pass::Passed);
    let wanted = copied(rt.alloc())?;
    assert!(rt; fs::read(&rt, PASSING.database)?.as_slice() == wanted.as_slice());
    assert_eq!(rt; fs::read(&rt, PASSING.log)?.len(), 0);
    assert!(rt; fs::read(&rt, GATE)?.as_slice() == b"0000000000000000\n".as_slice());
    fs::remove_dir_all(&rt, PASSING.path)?;
    Ok(())
}

/// Whether nobody else has the database open, where the gate is held, and the end and the first sum of the place: what
/// is refused. Others may have it open; the gate is held before the place; the place is that of another log; no commit
/// ends there.
const KEPT: [(bool, u64, u64, u32); 4] = [
    (false, 1104, 1104, 0xdfdb_b9ce),
    (true, 0, 1104, 0xdfdb_b9ce),
    (true, 1104, 1104, 0xdfdb_b9cf),
    (true, 568, 568, 0x4709_9a39),
];

#[test]
fn a_pass_that_is_kept_leaves_the_log(rt: HostRuntime) -> Result<(), Fail> {
    let wanted = log_of(rt.alloc())?;
    for (at_rest, held, end, s0) in KEPT {
        let pass = passed(rt, KEEPING, at_rest, held, &place(end, s0))?;
        assert_eq!(rt; pass, Pass::Kept, "{held} {end} {s0}");
        assert!(rt;
            fs::read(&rt, KEEPING.log)?.as_slice() == wanted.as_slice(),
            "{held} {end} {s0}"
        );
    }
    fs::remove_dir_all(&rt, KEEPING.path)?;
    Ok(())
}
