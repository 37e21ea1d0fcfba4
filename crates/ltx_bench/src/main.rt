//! Times an LTX file of real pages, one measure a run:
//!
//! - `ltx_bench check SOURCE`: the sum of as many bytes in memory alone.
//! - `ltx_bench write SOURCE TARGET`: the pages of the source written as an LTX file.
//! - `ltx_bench read TARGET`: that file read page by page to its end, which tests its sum.
//!
//! A measure is taken some times. Each line has its name, its result and its time in nanoseconds; the result of `write`
//! and `read` is the number of the last page. Without words it does nothing. `bench/ltx` runs it beside `cp` and `cat`.
#![tactic(auto)]

mod pages;
mod reading;
mod writing;

use crash_disk::Disk;
use file_disk::FileDisk;
use ls_sums::Crc64;
use reading::read_file;
use std::io::{self, ErrorKind};
use std::time::Instant;
use std::{env, fs};
use writing::write_file;

/// How often each measure is taken.
const ROUNDS: u8 = 5;

fn main(rt: HostRuntime) -> io::Result<()> {
    let mut words = env::args(&rt)?.skip(1);
    let (Some(measure), Some(source)) = (words.next(), words.next()) else {
        return Ok(());
    };
    match (measure.as_str(), words.next()) {
        ("check", _) => check(&rt, source.as_str()),
        ("write", Some(target)) => write(&rt, source.as_str(), target.as_str()),
        ("read", _) => read(&rt, source.as_str()),
        _ => Ok(()),
    }
}

fn check(rt: &HostRuntime, source: &str) -> io::Result<()> {
    let bytes = fs::read(rt, source)?;
    for _ in 0..ROUNDS {
        let start = Instant::now(rt)?;
        let mut sum = Crc64::new();
        sum.over(&bytes);
        report(rt, "check", sum.finish(), &start)?;
    }
    Ok(())
}

fn write(rt: &HostRuntime, source: &str, target: &str) -> io::Result<()> {
    let mut disk = paths(rt)?;
    for _ in 0..ROUNDS {
        let start = Instant::now(rt)?;
        let last = write_file(rt.alloc(), &mut disk, source, target)?;
        report(rt, "write", u64::from(last), &start)?;
    }
    Ok(())
}

fn read(rt: &HostRuntime, name: &str) -> io::Result<()> {
    let mut disk = paths(rt)?;
    for _ in 0..ROUNDS {
        let start = Instant::now(rt)?;
        let last = read_file(rt.alloc(), &mut disk, name)?;
        report(rt, "read", u64::from(last), &start)?;
    }
    Ok(())
}

/// The disk of which each name is a path: that of the current folder, which has no name.
fn paths(rt: &HostRuntime) -> io::Result<FileDisk> {
    let mut disk = FileDisk::new(*rt);
    match disk.attach(rt.alloc(), "") {
        Ok(()) => Ok(disk),
        Err(_) => Err(ErrorKind::OutOfMemory.into()),
    }
}

/// Prints a measure that began at `start`.
fn report(rt: &HostRuntime, name: &str, value: u64, start: &Instant) -> io::Result<()> {
    let time = start.elapsed(rt)?;
    println!(rt; "{name} {value} {}", time.as_nanos())
}
