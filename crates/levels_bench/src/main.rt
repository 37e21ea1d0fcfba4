//! Times the merging of a replica's files, one measure a run:
//!
//! - `levels_bench due FOLDER`: which runs are due at levels 1 and 9 by the names of the replica in the folder.
//! - `levels_bench merge FOLDER`: the merge of the run that is due at level 1.
//!
//! The time of day is as late as can be, so that a run is due wherever there is one. Each line has the name of a
//! measure, the last transaction of the run, 0 where there is none, and its time in nanoseconds; a refusal is told in
//! words. Without words it does nothing. `bench/levels.py` runs it.
#![tactic(auto)]

ghost use Rattle.std.specs.Prelude.{◌≡◌};
ghost use Rattle.replica_store.specs.Chain.{IsListOrdered, names_of};

use compact_levels::{Run, due, merge};
use crash_disk::Disk;
use file_disk::FileDisk;
use replica_store::{Dated, FileName, dated, list};
use std::time::Instant;
use std::{env, io};

/// How often it is asked which runs are due.
const ROUNDS: u8 = 5;

fn main(rt: HostRuntime) -> io::Result<()> {
    let mut words = env::args(&rt)?.skip(1);
    let (Some(measure), Some(folder)) = (words.next(), words.next()) else {
        return Ok(());
    };
    let mut disk = FileDisk::new(rt);
    if disk.attach(rt.alloc(), folder.as_str()).is_err() {
        return println!(rt; "no memory");
    }
    let Ok(names) = list(rt.alloc(), &mut disk) else {
        return println!(rt; "the names can't be read");
    };
    let Ok(moments) = dated(rt.alloc(), &mut disk, names.as_slice()) else {
        return println!(rt; "the headers can't be read");
    };
    match measure.as_str() {
        "due" => time_due(&rt, moments.as_slice()),
        "merge" => time_merge(&rt, &mut disk, names.as_slice(), moments.as_slice()),
        _ => Ok(()),
    }
}

/// Asks some times which runs are due.
fn time_due(rt: &HostRuntime, dated: &[Dated]) -> io::Result<()>
    requires in_order { IsListOrdered (names_of dated.now) }
{
    for _ in 0..ROUNDS {
        let start = Instant::now(rt)?;
        report(rt, "due_1", due(dated, 1, u64::MAX), &start)?;
        let start = Instant::now(rt)?;
        report(rt, "due_9", due(dated, 9, u64::MAX), &start)?;
    }
    Ok(())
}

/// Merges the run that is due at level 1.
fn time_merge(
    rt: &HostRuntime,
    disk: &mut FileDisk,
    names: &[FileName],
    dated: &[Dated],
) -> io::Result<()>
    requires in_order { IsListOrdered names.now }
    requires same { names_of dated.now ≡ names.now }
{
    let Some(run) = due(dated, 1, u64::MAX) else {
        return println!(rt; "no run");
    };
    let start = Instant::now(rt)?;
    match merge(rt.alloc(), disk, names, &run) {
        Ok(_) => report(rt, "merge", Some(run), &start),
        Err(fault) => println!(rt; "refused: {fault}"),
    }
}

/// Prints a measure that began at `start`.
fn report(rt: &HostRuntime, name: &str, run: Option<Run>, start: &Instant) -> io::Result<()> {
    let time = start.elapsed(rt)?;
    let end = run.map_or(0, |run| run.max.number());
    println!(rt; "{name} {end} {}", time.as_nanos())
}
