//! Times the scan of a log beside its checksum alone: `wal_bench FILE`.
//!
//! Each line has the name of a measure, its result and its time in nanoseconds. The result of a scan is the
//! end of the last commit, 0 where there is none. Without a file it does nothing. `bench/wal` runs it on a
//! log that SQLite wrote.
#![tactic(auto)]

ghost use Rattle.std.specs.Prelude.{◌≡◌, ◌+◌, ◌<◌, ◌≤◌, ◌^◌, length};

use ls_sums::{Order, WalSum};
use std::alloc::Global;
use std::time::Instant;
use std::{env, fs, io};
use wal_frames::{Fed, Scan, WalHeader, read_wal_header};

/// How often each measure is taken.
const ROUNDS: u8 = 5;
/// The length of a log's header in bytes.
const HEADER_BYTES: usize = 32;

fn main(rt: HostRuntime) -> io::Result<()> {
    let Some(path) = env::args(&rt)?.nth(1) else {
        return Ok(());
    };
    let bytes = fs::read(&rt, path.as_str())?;
    let Ok(head) = read_wal_header(&bytes) else {
        return println!(rt; "refused 0 0");
    };
    for _ in 0..ROUNDS {
        let start = Instant::now(&rt)?;
        report(&rt, "scan", last_end(rt.alloc(), head, &bytes), &start)?;
        let start = Instant::now(&rt)?;
        report(&rt, "sum", sum_of(head.order, &bytes), &start)?;
    }
    Ok(())
}

/// Prints a measure that began at `start`.
fn report(rt: &HostRuntime, name: &str, value: u64, start: &Instant) -> io::Result<()> {
    let time = start.elapsed(rt)?;
    println!(rt; "{name} {value} {}", time.as_nanos())
}

/// The end of the last commit of the log, or 0 where there is none or no memory for a frame.
fn last_end(alloc: Global, head: WalHeader, log: &[u8]) -> u64 {
    let Ok(mut scan) = Scan::begin(alloc, head) else {
        return 0;
    };
    let (_, mut rest) = log.split_at(HEADER_BYTES.min(log.len()));
    while let Fed::Frame { taken, .. } = scan.feed(rest) {
        rest = &rest[taken..];
    }
    scan.last().map_or(0, |mark| mark.end)
}

/// The sums of the bytes, both in one number. Bytes behind the last pair of words are left out.
fn sum_of(order: Order, bytes: &[u8]) -> u64 {
    let (pairs, _) = bytes.split_at(bytes.len() / 8 * 8);
    let sum = WalSum::start().over(order, pairs);
    u64::from(sum.s0) << 32 | u64::from(sum.s1)
}
