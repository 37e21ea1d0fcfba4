//! Times the sums over a file's bytes, beside a plain copy of them: `sums_bench FILE`.
//!
//! Each line has the name of a measure, its result and its time in nanoseconds. Without a file it does
//! nothing. `bench/sums` runs it beside the same measures in C.
#![tactic(auto)]

use ls_sums::{Crc64, Order, WalSum};
use std::time::Instant;
use std::{env, fs, io};

/// How often each measure is taken.
const ROUNDS: u8 = 5;
/// The length of a page in bytes.
const PAGE_BYTES: usize = 4096;

fn main(rt: HostRuntime) -> io::Result<()> {
    let Some(path) = env::args(&rt)?.nth(1) else {
        return Ok(());
    };
    let bytes = fs::read(&rt, path.as_str())?;
    let mut copy = vec![in rt.alloc(); 0u8; bytes.len()]?;
    for _ in 0..ROUNDS {
        let start = Instant::now(&rt)?;
        copy.copy_from_slice(&bytes);
        report(&rt, "copy", 0, &start)?;
        measure(&rt, &bytes)?;
    }
    Ok(())
}

/// Takes each measure of the bytes once.
fn measure(rt: &HostRuntime, bytes: &[u8]) -> io::Result<()> {
    let start = Instant::now(rt)?;
    report(rt, "check", check_of(bytes), &start)?;
    let start = Instant::now(rt)?;
    report(rt, "pages", checks_of_pages(bytes), &start)?;
    let start = Instant::now(rt)?;
    report(rt, "little", sum_of(Order::Little, bytes), &start)?;
    let start = Instant::now(rt)?;
    report(rt, "big", sum_of(Order::Big, bytes), &start)
}

/// Prints a measure that began at `start`.
fn report(rt: &HostRuntime, name: &str, value: u64, start: &Instant) -> io::Result<()> {
    let time = start.elapsed(rt)?;
    println!(rt; "{name} {value} {}", time.as_nanos())
}

/// The check of all bytes.
fn check_of(bytes: &[u8]) -> u64 {
    let mut check = Crc64::new();
    check.over(bytes);
    check.finish()
}

/// The exclusive or of the checks of the pages.
fn checks_of_pages(bytes: &[u8]) -> u64 {
    let mut checks = 0;
    for page in bytes.chunks(PAGE_BYTES) {
        checks ^= check_of(page);
    }
    checks
}

/// The sums of a log over the bytes, both in one number. Bytes behind the last pair of words are left out.
fn sum_of(order: Order, bytes: &[u8]) -> u64 {
    let (pairs, _) = bytes.split_at(bytes.len() / 8 * 8);
    let sum = WalSum::start().over(order, pairs);
    u64::from(sum.s0) << 32 | u64::from(sum.s1)
}
