//! Times a checkpoint of a real database: `checkpoint_bench DATABASE LOG END`.
//!
//! The log is copied up to the commit that ends at the offset, and then emptied. A line has the name of a call and its
//! time in nanoseconds, or `refused`. Without three words it does nothing. `bench/checkpoint.py` runs it on a log that
//! SQLite wrote.
#![tactic(auto)]

use checkpointer::{backfill, restart};
use crash_disk::Disk;
use file_disk::FileDisk;
use std::time::Instant;
use std::{env, io};

fn main(rt: HostRuntime) -> io::Result<()> {
    let mut words = env::args(&rt)?;
    let (Some(database), Some(log), Some(end)) = (words.nth(1), words.next(), words.next()) else {
        return Ok(());
    };
    let Ok(end) = end.as_str().parse::<u64>() else {
        return Ok(());
    };
    let (database, log) = (database.as_str(), log.as_str());
    // below the current folder, which has no name, a name is a path
    let mut disk = FileDisk::new(rt);
    if database == log || disk.attach(rt.alloc(), "").is_err() {
        return println!(rt; "refused 0");
    }
    let start = Instant::now(&rt)?;
    let Ok(copied) = backfill(rt.alloc(), &mut disk, database, log, end) else {
        return println!(rt; "refused 0");
    };
    report(&rt, "backfill", &start)?;
    let start = Instant::now(&rt)?;
    match restart(&mut disk, database, log, copied) {
        Err(_) => println!(rt; "refused 0"),
        Ok(()) => report(&rt, "restart", &start),
    }
}

/// Prints a measure that began at `start`.
fn report(rt: &HostRuntime, name: &str, start: &Instant) -> io::Result<()> {
    let time = start.elapsed(rt)?;
    println!(rt; "{name} {}", time.as_nanos())
}
