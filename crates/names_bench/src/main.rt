//! Times lists of names: `names_bench COUNT`.
//!
//! Each line has the name of a measure, the count of names and the time in nanoseconds. `sort` sorts names that
//! stand in no order, and `list` lists them from a disk in memory, which gives them in order. Without a count it does
//! nothing. `bench/names` runs it for several counts.
#![tactic(auto)]

use crash_disk::MemDisk;
use ls_base::{Memory, Txid};
use replica_store::{FileName, list, write_name};
use std::alloc::Global;
use std::time::Instant;
use std::{env, io};

/// How often each measure is taken.
const ROUNDS: u8 = 5;
/// An odd number, so that its multiples below 2^64 differ; they stand in no order.
const STEP: u64 = 0x9e37_79b9_7f4a_7c15;

fn main(rt: HostRuntime) -> io::Result<()> {
    let Some(text) = env::args(&rt)?.nth(1) else {
        return Ok(());
    };
    let Ok(count) = text.as_str().parse::<u64>() else {
        return Ok(());
    };
    for _ in 0..ROUNDS {
        sort(&rt, count)?;
        read_list(&rt, count)?;
    }
    Ok(())
}

/// Sorts the names, and prints how long it took.
fn sort(rt: &HostRuntime, count: u64) -> io::Result<()> {
    let Ok(mut names) = names(rt.alloc(), count) else {
        return Ok(());
    };
    let start = Instant::now(rt)?;
    names.sort_unstable();
    report(rt, "sort", names.len(), &start)
}

/// Lists the names of a disk, and prints how long it took.
fn read_list(rt: &HostRuntime, count: u64) -> io::Result<()> {
    let Ok(mut store) = disk(rt.alloc(), count) else {
        return Ok(());
    };
    let start = Instant::now(rt)?;
    let Ok(names) = list(rt.alloc(), &mut store) else {
        return Ok(());
    };
    report(rt, "list", names.as_slice().len(), &start)
}

/// Prints a measure that began at `start`.
fn report(rt: &HostRuntime, name: &str, count: usize, start: &Instant) -> io::Result<()> {
    let time = start.elapsed(rt)?;
    println!(rt; "{name} {count} {}", time.as_nanos())
}

/// The name of this number. Different numbers have different names.
fn name_at(at: u64) -> Option<FileName> {
    let txid = Txid::new(at.wrapping_add(1).wrapping_mul(STEP))?;
    FileName::new(0, txid, txid)
}

/// So many names, in no order.
fn names(alloc: Global, count: u64) -> Result<Vec<FileName>, Memory> {
    let mut names = Vec::new(alloc);
    for at in 0..count {
        if let Some(name) = name_at(at) {
            names.push(name)?;
        }
    }
    Ok(names)
}

/// A disk with files of so many names.
fn disk(alloc: Global, count: u64) -> Result<MemDisk, Memory> {
    let mut disk = MemDisk::new(alloc);
    for at in 0..count {
        if let Some(name) = name_at(at) {
            disk.put_file(write_name(&name).as_str(), b"")?;
        }
    }
    Ok(disk)
}
