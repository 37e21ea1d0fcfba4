//! Times a follower over a real log: `follow_bench DATABASE LOG FIRST SECOND OUT`.
//!
//! The follower finds the last commit in the log's first FIRST bytes and records it, then the one in its first SECOND
//! bytes, and then the one in the whole log. A line has the name of a measure, its result and its time in nanoseconds:
//! `copy` reads the FIRST bytes through a buffer, `scan` is the scan of them alone, `next` the follower's first
//! call, `second` its second, which lets the first one's offsets go, and `later` its third. The file OUT gets the
//! pages of the last piece, each behind its number in four bytes. Without five words it does nothing.
//! `bench/follow.py` runs it on logs that SQLite wrote.
#![tactic(auto)]

ghost use Rattle.std.specs.Prelude.{◌≡◌, ◌≤◌, length, Some};
ghost use Rattle.wal_follow.specs.Calls.{target_of};

mod bytes_live;

use bytes_live::BytesLive;
use live_gate::Live;
use std::alloc::Global;
use std::fs::File;
use std::io::Write;
use std::time::Instant;
use std::{env, fs, io};
use wal_follow::{Follower, Found, Next, Wanted};
use wal_frames::{Fed, Scan, read_wal_header};

/// How many bytes of the log are read at once.
const BUFFER_BYTES: usize = 65536;
/// The length of a log's header in bytes.
const HEADER_BYTES: usize = 32;

fn main(rt: HostRuntime) -> io::Result<()> {
    let mut words = env::args(&rt)?;
    let (Some(database), Some(log), Some(first), Some(second), Some(out)) = (
        words.nth(1),
        words.next(),
        words.next(),
        words.next(),
        words.next(),
    ) else {
        return Ok(());
    };
    let (Ok(first), Ok(second)) = (
        first.as_str().parse::<usize>(),
        second.as_str().parse::<usize>(),
    ) else {
        return Ok(());
    };
    let mut live = BytesLive {
        file: fs::read(&rt, database.as_str())?,
        log: fs::read(&rt, log.as_str())?,
        len: first,
        next: 0,
    };
    let start = Instant::now(&rt)?;
    let copied = copy_log(rt.alloc(), &mut live);
    report(&rt, "copy", copied, &start)?;
    let start = Instant::now(&rt)?;
    let end = last_end(rt.alloc(), &live.log[..first.min(live.log.len())]);
    report(&rt, "scan", end, &start)?;
    follow(&rt, &mut live, second, out.as_str())
}

/// Prints a measure that began at `start`.
fn report(rt: &HostRuntime, name: &str, value: u64, start: &Instant) -> io::Result<()> {
    let time = start.elapsed(rt)?;
    println!(rt; "{name} {value} {}", time.as_nanos())
}

/// Reads the log through a buffer, and answers how many bytes came.
fn copy_log(alloc: Global, live: &mut BytesLive) -> u64 {
    let Ok(mut buffer) = vec![in alloc; 0u8; BUFFER_BYTES] else {
        return 0;
    };
    let all = live.len as u64;
    let mut left = all;
    live.next = 0;
    while left > 0 {
        let room = buffer.len().min(left as usize);
        let Ok(count) = live.read(&mut buffer[..room]) else {
            return 0;
        };
        if count == 0 {
            return all - left;
        }
        left -= count as u64;
    }
    all
}

/// The end of the last commit of the log, or 0 where there is none or no memory for a frame.
fn last_end(alloc: Global, log: &[u8]) -> u64 {
    let Ok(head) = read_wal_header(log) else {
        return 0;
    };
    let Ok(mut scan) = Scan::begin(alloc, head) else {
        return 0;
    };
    let (_, mut rest) = log.split_at(HEADER_BYTES.min(log.len()));
    while let Fed::Frame { taken, .. } = scan.feed(rest) {
        rest = &rest[taken..];
    }
    scan.last().map_or(0, |mark| mark.end)
}

/// Times the follower's three calls, and writes the pages of the last piece.
fn follow(rt: &HostRuntime, live: &mut BytesLive, second: usize, out: &str) -> io::Result<()> {
    let mut follower = Follower::start(rt.alloc(), None);
    let start = Instant::now(rt)?;
    let Ok(Next::Lost(whole)) = follower.next(live) else {
        return println!(rt; "refused 0 0");
    };
    report(rt, "next", u64::from(whole.commit), &start)?;
    follower.stored(&whole);
    live.len = second;
    let start = Instant::now(rt)?;
    let Ok(Next::Piece(piece)) = follower.next(live) else {
        return println!(rt; "refused 0 0");
    };
    report(rt, "second", u64::from(piece.commit), &start)?;
    follower.stored(&piece);
    live.len = live.log.len();
    let start = Instant::now(rt)?;
    let Ok(Next::Piece(piece)) = follower.next(live) else {
        return println!(rt; "refused 0 0");
    };
    report(rt, "later", u64::from(piece.commit), &start)?;
    write_pages(rt, live, &follower, &piece, out)
}

/// Writes the pages of the piece, each behind its number.
fn write_pages(
    rt: &HostRuntime,
    live: &mut BytesLive,
    follower: &Follower,
    piece: &Found,
    out: &str,
) -> io::Result<()>
    requires found { follower.now.found ≡ Some (target_of piece.now) }
{
    let Wanted::Listed(numbers) = &piece.wanted else {
        return Ok(());
    };
    let mut file = File::create(rt, out)?;
    let mut page = vec![in rt.alloc(); 0u8; piece.size.get() as usize]?;
    for at in 0..numbers.len() {
        let number = numbers.get(at).unwrap_or(0);
        if number < 1 || number > piece.commit {
            continue;
        }
        if follower.page(live, piece, number, &mut page).is_err() {
            return println!(rt; "refused 0 0");
        }
        file.write_all(&number.to_le_bytes())?;
        file.write_all(&page)?;
    }
    Ok(())
}
