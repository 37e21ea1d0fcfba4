//! What replications of small databases print and store.

use crate::content::{MOMENT, PIECE, WHOLE, database, run};
use crash_disk::{Disk, MemDisk, MemOut};
use db_page::HeaderFault;
use live_gate::{Live, StillLive};
use ls_answers::Why;
use replica_store::{header_of, read_name};
use std::alloc::Global;
use std::process::Abort;
use std::test::Fail;

const FIRST: &str =
    "round 1 whole ltx/9/0000000000000001-0000000000000001.ltx passed 0 merged 0 dropped 0 lost 0\n";

const SAME: &str = "round 1 same - passed 0 merged 0 dropped 0 lost 0\n";

const NEXT: &str =
    "round 1 piece ltx/0/0000000000000002-0000000000000002.ltx passed 0 merged 0 dropped 0 lost 0\n";

const TWICE: &str =
    "round 1 same - passed 0 merged 0 dropped 0 lost 0\nround 2 same - passed 0 merged 0 dropped 0 lost 0\n";

/// A run over the database with the log up to the end of so many frames and a part of one more; how many rounds it
/// has, its moment, what it prints, and a file that is there then with its size in bytes.
type Row = (
    usize,
    &'static [u8],
    u32,
    u64,
    &'static str,
    &'static str,
    u64,
);

/// The runs of one replica, one after the other.
const ROWS: [Row; 5] = [
    (2, b"", 1, MOMENT, FIRST, WHOLE, 1158),
    (2, b"", 1, MOMENT, SAME, WHOLE, 1158),
    (2, b"\0\0\0\x02\0\0\0\x02\0\0", 1, MOMENT, SAME, WHOLE, 1158),
    (5, b"", 1, MOMENT - 5_000, NEXT, PIECE, 640),
    (5, b"", 2, MOMENT + 1_000, TWICE, PIECE, 640),
];

fn check(rt: &impl Abort, alloc: Global, store: &mut MemDisk, row: &Row) -> Result<(), Fail> {
    let (frames, part, rounds, now, text, path, size) = *row;
    let mut live = database(alloc, frames, part)?;
    let mut out = MemOut::new(alloc);
    assert!(rt; run(alloc, &mut live, store, &mut out, rounds, now) == Why::Done);
    assert!(rt; out.bytes() == text.as_bytes());
    assert!(rt; store.size(path)? == Some(size));
    Ok(())
}

#[test]
fn each_round_stores_what_changed_and_prints_its_line(rt: HostRuntime) -> Result<(), Fail> {
    let mut store = MemDisk::new(rt.alloc());
    for row in &ROWS {
        check(&rt, rt.alloc(), &mut store, row)?;
    }
    // The moments of files never fall.
    let name = read_name(PIECE).ok_or("a name")?;
    assert!(rt; header_of(&mut store, &name)?.moment == MOMENT);
    Ok(())
}

/// How a run over a database file with these bytes ends.
fn refused(alloc: Global, file: &[u8]) -> Result<Why, Fail> {
    let mut live = StillLive::new(alloc, file, b"")?;
    let mut store = MemDisk::new(alloc);
    let mut out = MemOut::new(alloc);
    Ok(run(alloc, &mut live, &mut store, &mut out, 1, MOMENT))
}

#[test]
fn a_file_that_is_no_database_is_refused(rt: HostRuntime) -> Result<(), Fail> {
    let why = refused(rt.alloc(), &[0; 99])?;
    assert!(rt; why == Why::Header(HeaderFault::Short(99)));
    let why = refused(rt.alloc(), &[0; 100])?;
    assert!(rt; why == Why::Header(HeaderFault::NotDatabase));
    let mut file = Vec::from_slice(rt.alloc(), b"SQLite format 3\0\x02\0\x01\x01")?;
    file.extend_from_slice(&[0; 80])?;
    let why = refused(rt.alloc(), &file)?;
    assert!(rt; why == Why::Header(HeaderFault::NotWalMode { write: 1, read: 1 }));
    Ok(())
}

/// The file of all transactions that there can be.
const LAST: &str = "ltx/9/0000000000000001-ffffffffffffffff.ltx";

/// Its header, with an older place, at rest.
fn last_header(alloc: Global) -> Result<Vec<u8>, Fail> {
    let mut bytes = Vec::from_slice(
        alloc,
        b"LTX1\0\0\0\x02\0\0\x02\0\0\0\0\x02\0\0\0\0\0\0\0\x01",
    )?;
    bytes.extend_from_slice(&[255; 8])?;
    bytes.extend_from_slice(&[0; 48])?;
    bytes.extend_from_slice(b"\x80\0\0\0\0\0\0\x07\0\0\0\0\0\0\0\0\0\0\0\0")?;
    Ok(bytes)
}

#[test]
fn no_transaction_comes_behind_the_last_one(rt: HostRuntime) -> Result<(), Fail> {
    let mut store = MemDisk::new(rt.alloc());
    store.put_file(LAST, &last_header(rt.alloc())?)?;
    let mut live = database(rt.alloc(), 2, b"")?;
    let mut out = MemOut::new(rt.alloc());
    let why = run(rt.alloc(), &mut live, &mut store, &mut out, 1, MOMENT);
    assert!(rt; why == Why::TxidSpent && out.bytes().is_empty());
    assert!(rt; store.names(rt.alloc())?.len() == 1 && live.faults() == 0);
    Ok(())
}
