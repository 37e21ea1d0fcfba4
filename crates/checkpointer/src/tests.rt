//! A log of three frames with two commits, copied and emptied: whole, stopped after each call, and with each call
//! failing. The sums of its marks come from a script in Python that follows the file format.

ghost use Rattle.std.specs.Prelude.{◌≡◌, ◌≢◌, IfOk};
ghost use Rattle.wal_frames.specs.WalFormat.{HasSums};
ghost use Rattle.checkpointer.specs.PairState.{AreNamed};

use crate::{BackfillFault, RestartFault, backfill, restart};
use crash_disk::{Disk, DiskFault, MemDisk};
use ls_base::{Mark, PageSize};
use ls_sums::{Order, WalSum};
use std::alloc::Global;
use std::process::Abort;
use std::test::Fail;
use wal_frames::{WalHeader, write_frame, write_wal_header};

/// The length of a frame with a page of 512 bytes.
const FRAME_BYTES: usize = 536;
/// The page number, the commit size and the fill of each frame.
const FRAMES: [(u32, u32, u8); 3] = [(1, 0, 0x11), (2, 2, 0x22), (2, 2, 0x33)];
/// The length of the log.
const LOG_BYTES: usize = 1640;

/// The mark behind the first commit.
const FIRST: Mark = Mark {
    salt1: 1,
    salt2: 2,
    end: 1104,
    s0: 0xdfdb_b9ce,
    s1: 0xd7a6_1ac1,
    commit: 2,
};

/// The mark behind the second commit.
const SECOND: Mark = Mark {
    salt1: 1,
    salt2: 2,
    end: 1640,
    s0: 0xbdbd_e5e4,
    s1: 0xacfd_efcf,
    commit: 2,
};

/// A page with this fill, the first one behind the front of a database file in WAL mode.
fn page(number: u32, fill: u8) -> [u8; 512] {
    let mut page = [fill; 512];
    if number == 1 {
        page[..100].copy_from_slice(&[0; 100]);
        page[..20].copy_from_slice(b"SQLite format 3\0\x02\x00\x02\x02");
    }
    page
}

/// Two pages with these fills.
fn pages(first: u8, second: u8) -> [u8; 1024] {
    let mut bytes = [0; 1024];
    bytes[..512].copy_from_slice(&page(1, first));
    bytes[512..].copy_from_slice(&page(2, second));
    bytes
}

/// The log of the frames.
fn log_under(head: &WalHeader) -> [u8; LOG_BYTES]
    requires size { head.now.size ≡ 512 }
    requires sums { HasSums head.now }
{
    let mut log = [0; LOG_BYTES];
    let mut front = [0; 32];
    write_wal_header(head, &mut front);
    log[..32].copy_from_slice(&front);
    let mut sums = WalSum {
        s0: head.s0,
        s1: head.s1,
    };
    for k in 0..3 {
        let (number, commit, fill) = FRAMES[k];
        let start = 32 + FRAME_BYTES * k;
        sums = write_frame(
            head,
            sums,
            number,
            commit,
            &page(number, fill),
            &mut log[start..start + FRAME_BYTES],
        );
    }
    log
}

/// The log, with pages of 512 bytes.
fn log() -> Result<[u8; LOG_BYTES], Fail> {
    let size = PageSize::from_u32(512).ok_or("512 is a page size")?;
    Ok(log_under(&WalHeader::new(Order::Big, size, 0, 1, 2)))
}

/// A disk with a database file of one page, filled with zeros, and a log.
fn disk_with(alloc: Global, db: &str, wal: &str, log: &[u8]) -> Result<MemDisk, Fail>
    requires apart { db.now ≢ wal.now }
    ensures named { IfOk result (λ disk. AreNamed disk.events db.now wal.now) }
{
    let mut disk = MemDisk::new(alloc);
    disk.put_file(db, &page(1, 0))?;
    disk.put_file(wal, log)?;
    Ok(disk)
}

/// Whether the file has these bytes and no more.
fn reads(disk: &mut MemDisk, name: &str, wanted: &[u8]) -> Result<bool, DiskFault> {
    let mut into = [0; LOG_BYTES];
    let size = disk.size(name)?;
    let count = disk.read_at(name, 0, &mut into)?;
    Ok(size == Some(wanted.len() as u64) && &into[..count] == wanted)
}

/// Why a log was kept.
#[derive(Clone, Copy, Debug, PartialEq, Eq)]
enum Kept {
    Uncopied(BackfillFault),
    Unemptied(RestartFault),
}

/// Copies the log up to the offset, and empties it. Answers the mark.
fn checkpointed(
    alloc: Global,
    disk: &mut MemDisk,
    db: &str,
    wal: &str,
    upto: u64,
) -> Result<Mark, Kept>
    requires apart { db.now ≢ wal.now }
    requires named { AreNamed disk.old.events db.now wal.now }
{
    let copied = match backfill(alloc, disk, db, wal, upto) {
        Err(fault) => return Err(Kept::Uncopied(fault)),
        Ok(copied) => copied,
    };
    let mark = *copied.mark();
    match restart(disk, db, wal, copied) {
        Err(fault) => Err(Kept::Unemptied(fault)),
        Ok(()) => Ok(mark),
    }
}

/// Checkpoints the log up to the offset: the answer, and the bytes of the database file then.
fn check_row(
    rt: &impl Abort,
    alloc: Global,
    log: &[u8],
    upto: u64,
    answer: Result<Mark, Kept>,
    database: &[u8],
) -> Result<(), Fail> {
    let mut disk = disk_with(alloc, "db", "wal", log)?;
    let done = checkpointed(alloc, &mut disk, "db", "wal", upto);
    assert_eq!(rt; done, answer, "up to {upto}");
    assert!(rt; reads(&mut disk, "db", database)?, "up to {upto}");
    let emptied = reads(&mut disk, "wal", &[])?;
    assert!(rt; emptied == done.is_ok(), "up to {upto}");
    assert!(rt; emptied || reads(&mut disk, "wal", log)?, "up to {upto}");
    Ok(())
}

/// The answer where no commit ends at the offset.
const NO_MARK: Result<Mark, Kept> = Err(Kept::Uncopied(BackfillFault::NotMark));
/// The answer where the log has another commit.
const GROWN: Result<Mark, Kept> = Err(Kept::Unemptied(RestartFault::Grown(SECOND)));

#[test]
fn a_log_is_copied_and_emptied(rt: HostRuntime) -> Result<(), Fail> {
    let log = log()?;
    let short = &log[..1104];
    let before = page(1, 0);
    let alloc = rt.alloc();
    check_row(&rt, alloc, short, 1104, Ok(FIRST), &pages(0x11, 0x22))?;
    check_row(&rt, alloc, &log, 1640, Ok(SECOND), &pages(0x11, 0x33))?;
    check_row(&rt, alloc, &log, 1104, GROWN, &pages(0x11, 0x22))?;
    for upto in [0, 568, 1000, 1640] {
        check_row(&rt, alloc, short, upto, NO_MARK, &before)?;
    }
    Ok(())
}

/// How many calls the two make: the log is synced, its header, its length and its frames are read, and its length is
/// looked at for a newer commit; two pages are read and written; the length of the database file is read and set, and
/// the file is synced; then the log's length is looked at, and it is cut and synced.
const CALLS: u64 = 15;

/// Whether both pages are left: in the log while that stands, else in the database file.
fn has_both(disk: &mut MemDisk, log: &[u8]) -> Result<bool, DiskFault> {
    if reads(disk, "wal", log)? {
        return Ok(true);
    }
    Ok(reads(disk, "wal", &[])? && reads(disk, "db", &pages(0x11, 0x33))?)
}

fn check_stop(
    rt: &impl Abort,
    alloc: Global,
    log: &[u8],
    calls: u64,
    choice: u64,
) -> Result<(), Fail> {
    let mut disk = disk_with(alloc, "db", "wal", log)?;
    disk.stop_after(calls);
    let done = checkpointed(alloc, &mut disk, "db", "wal", 1640).is_ok();
    assert!(rt; done == (calls == CALLS), "stop after {calls}");
    disk.crash(choice)?;
    assert!(rt;
        has_both(&mut disk, log)?,
        "stop after {calls}, choice {choice}"
    );
    Ok(())
}

fn check_stops(rt: &impl Abort, alloc: Global, log: &[u8]) -> Result<(), Fail> {
    for row in 0..8 * (CALLS + 1) {
        check_stop(rt, alloc, log, row / 8, row % 8)?;
    }
    Ok(())
}

#[test]
fn a_stop_loses_nothing(rt: HostRuntime) -> Result<(), Fail> {
    let log = log()?;
    check_stops(&rt, rt.alloc(), &log)
}

fn check_fault(rt: &impl Abort, alloc: Global, log: &[u8], call: u64) -> Result<(), Fail> {
    let mut disk = disk_with(alloc, "db", "wal", log)?;
    disk.fail_at(call)?;
    let done = checkpointed(alloc, &mut disk, "db", "wal", 1640).is_ok();
    assert!(rt; !done, "call {call}");
    assert_eq!(rt; disk.faults(), 1, "call {call}");
    assert!(rt; has_both(&mut disk, log)?, "call {call}");
    Ok(())
}

fn check_faults(rt: &impl Abort, alloc: Global, log: &[u8]) -> Result<(), Fail> {
    for before in 0..CALLS {
        check_fault(rt, alloc, log, before + 1)?;
    }
    Ok(())
}

#[test]
fn a_failing_call_loses_nothing(rt: HostRuntime) -> Result<(), Fail> {
    let log = log()?;
    check_faults(&rt, rt.alloc(), &log)
}
