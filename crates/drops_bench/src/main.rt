//! Decides what is dropped of each list of a file, and times it: `drops_bench FILE`.
//!
//! Each line of the file is a list: the cut, and then level, first and last transaction and moment of each name, all
//! in decimals with a space between two. For each line one is printed: the nanoseconds that it took, the number of
//! transactions that are lost, and the text of each dropped name. Without a file it does nothing. `bench/drops` runs
//! it.
#![tactic(auto)]

use ls_base::Txid;
use replica_store::{Dated, FileName, write_name};
use retention::drops;
use std::alloc::{AllocError, Global};
use std::time::Instant;
use std::{env, fs, io};

fn main(rt: HostRuntime) -> io::Result<()> {
    let Some(path) = env::args(&rt)?.nth(1) else {
        return Ok(());
    };
    let text = fs::read_to_string(&rt, path.as_str())?;
    for line in text.lines() {
        decide(&rt, line)?;
    }
    Ok(())
}

/// Decides on the list of a line, and prints what is dropped.
fn decide(rt: &HostRuntime, line: &str) -> io::Result<()> {
    let numbers = numbers_of(rt.alloc(), line)?;
    let Some((cut, parts)) = numbers.split_first() else {
        return Ok(());
    };
    let dated = dated_of(rt.alloc(), parts)?;
    let start = Instant::now(rt)?;
    let Ok(drops) = drops(rt.alloc(), dated.as_slice(), *cut) else {
        return println!(rt; "no memory");
    };
    let time = start.elapsed(rt)?;
    let mut text = String::new(rt.alloc());
    for name in drops.names() {
        text.push(' ')?;
        text.push_str(write_name(name).as_str())?;
    }
    println!(rt;
        "{} {}{}",
        time.as_nanos(),
        drops.lost().len(),
        text.as_str()
    )
}

/// The numbers of a line. A word that writes none is passed over.
fn numbers_of(alloc: Global, line: &str) -> Result<Vec<u64>, AllocError> {
    let mut numbers = Vec::new(alloc);
    for word in line.split(' ') {
        if let Ok(number) = word.parse::<u64>() {
            numbers.push(number)?;
        }
    }
    Ok(numbers)
}

/// The name of these four numbers, with its moment.
fn name_of(parts: &[u64]) -> Option<Dated> {
    let level = u8::try_from(*parts.first()?).ok()?;
    let min = Txid::new(*parts.get(1)?)?;
    let max = Txid::new(*parts.get(2)?)?;
    let moment = *parts.get(3)?;
    let name = FileName::new(level, min, max)?;
    Some(Dated { name, moment })
}

/// The names of the numbers, four for each.
fn dated_of(alloc: Global, parts: &[u64]) -> Result<Vec<Dated>, AllocError> {
    let mut dated = Vec::new(alloc);
    for parts in parts.chunks(4) {
        if let Some(one) = name_of(parts) {
            dated.push(one)?;
        }
    }
    Ok(dated)
}
