//! Times the plans over a list of names: `plans_bench FILE`.
//!
//! The file has a line for each name, in list order: its text, a space, and its moment. Each line that is
//! printed has the name of a measure, its result and its time in nanoseconds. Without a file it does nothing.
//! `bench/plans` runs it.
#![tactic(auto)]

ghost use Rattle.std.specs.Prelude.{◌≡◌, IfOk, IsTrue};
ghost use Rattle.std.specs.Ordering.{is_lt};
ghost use Rattle.replica_store.specs.Chain.{IsListOrdered, list_order, names_of};

use ls_base::Txid;
use replica_store::{Dated, FileName, read_name};
use restore_plan::{last_at, plan, retained};
use std::alloc::{AllocError, Global};
use std::time::Instant;
use std::{env, fs, io};

/// How often each measure is taken.
const ROUNDS: u8 = 5;

fn main(rt: HostRuntime) -> io::Result<()> {
    let Some(path) = env::args(&rt)?.nth(1) else {
        return Ok(());
    };
    let text = fs::read_to_string(&rt, path.as_str())?;
    let dated = dated_of(rt.alloc(), text.as_str())?;
    let names = names_in(rt.alloc(), &dated)?;
    let (Some(newest), Some(middle)) = (
        names.iter().map(|name| name.max).max(),
        dated.get(dated.len() / 2),
    ) else {
        return println!(rt; "no names");
    };
    if !in_order(&names) {
        return println!(rt; "not in list order");
    }
    for _ in 0..ROUNDS {
        measure(&rt, &names, newest)?;
        let start = Instant::now(&rt)?;
        report(
            &rt,
            "last",
            number_of(last_at(&dated, middle.moment)),
            &start,
        )?;
        let start = Instant::now(&rt)?;
        report(&rt, "latest", number_of(last_at(&dated, u64::MAX)), &start)?;
    }
    Ok(())
}

/// Takes each measure of the names once.
fn measure(rt: &HostRuntime, names: &[FileName], newest: Txid) -> io::Result<()>
    requires in_order { IsListOrdered names.now }
{
    let start = Instant::now(rt)?;
    report(rt, "retained", u64::from(retained(names, newest)), &start)?;
    let start = Instant::now(rt)?;
    let files = plan(rt.alloc(), names, newest).map_or(0, |chain| chain.as_slice().len());
    report(rt, "plan", files as u64, &start)
}

/// Prints a measure that began at `start`.
fn report(rt: &HostRuntime, name: &str, value: u64, start: &Instant) -> io::Result<()> {
    let time = start.elapsed(rt)?;
    println!(rt; "{name} {value} {}", time.as_nanos())
}

/// The transaction's number, 0 where there is none.
fn number_of(t: Option<Txid>) -> u64 {
    t.map_or(0, |t| t.number())
}

/// The name and the moment of a line.
fn dated_in(line: &str) -> Option<Dated> {
    let (text, moment) = line.split_once(' ')?;
    let name = read_name(text)?;
    let moment = moment.parse::<u64>().ok()?;
    Some(Dated { name, moment })
}

/// The names of the lines. A line that has none is passed over.
fn dated_of(alloc: Global, text: &str) -> Result<Vec<Dated>, AllocError> {
    let mut dated = Vec::new(alloc);
    for line in text.lines() {
        if let Some(one) = dated_in(line) {
            dated.push(one)?;
        }
    }
    Ok(dated)
}

/// The names without their moments.
fn names_in(alloc: Global, dated: &[Dated]) -> Result<Vec<FileName>, AllocError>
    ensures { IfOk result (λ names. names.items ≡ names_of dated.now) }
{
    dated.iter().map(|dated| dated.name).collect(alloc)
}

/// Whether the first stands before the other in list order.
fn is_before(first: &FileName, other: &FileName) -> bool
    ensures { result ≡ is_lt (list_order first.now other.now) }
{
    if first.level != other.level {
        return first.level < other.level;
    }
    if first.min != other.min {
        return first.min < other.min;
    }
    first.max < other.max
}

/// Whether the names stand in list order.
fn in_order(names: &[FileName]) -> bool
    ensures { IsTrue result → IsListOrdered names.now }
{
    for at in 1..names.len() {
        if is_before(&names[at], &names[at - 1]) {
            return false;
        }
    }
    true
}
