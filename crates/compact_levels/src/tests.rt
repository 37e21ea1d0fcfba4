//! Small lists whose due run was worked out by hand.

ghost use Rattle.std.specs.Prelude.{◌≡◌, IfOk, IsTrue};
ghost use Rattle.std.specs.Ordering.{is_lt};
ghost use Rattle.replica_store.specs.Chain.{IsListOrdered, list_order, names_of};

use super::*;
use ls_base::Txid;
use replica_store::{Dated, FileName};
use std::alloc::{AllocError, Global};
use std::test::*;

/// A name with its moment: level, first and last transaction, and moment.
type Row = (u8, u64, u64, u64);

/// A list, a level, the time, and the first and the last transaction of the run that is due.
type Case = (&'static [Row], u8, u64, Option<(u64, u64)>);

/// 2023-11-14T22:13:20Z, 20 seconds past a half minute.
const M0: u64 = 1_700_000_000_000;

/// Pieces of which the fourth is missing, with the whole database as of 4, and the first of them merged.
const GAP: &[Row] = &[
    (0, 2, 2, M0 + 1_000),
    (0, 3, 3, M0 + 2_000),
    (0, 5, 5, M0 + 4_000),
    (0, 6, 6, M0 + 5_000),
    (9, 1, 1, M0),
    (9, 1, 4, M0 + 3_000),
];

const GAP_MERGED: &[Row] = &[
    (0, 2, 2, M0 + 1_000),
    (0, 3, 3, M0 + 2_000),
    (0, 5, 5, M0 + 4_000),
    (0, 6, 6, M0 + 5_000),
    (1, 2, 3, M0 + 2_000),
    (9, 1, 1, M0),
    (9, 1, 4, M0 + 3_000),
];

/// Pieces of which two begin alike: 3 goes on from 2, and 4 would too, but stands behind another.
const FORK: &[Row] = &[(0, 2, 2, 0), (0, 3, 3, 0), (0, 3, 5, 0), (0, 4, 4, 0)];

/// A level whose last file leads nowhere, and one whose last two files end alike.
const NOWHERE: &[Row] = &[(0, 2, 2, 0), (0, 8, 8, 0), (1, 5, 7, 50_000)];

const ALIKE: &[Row] = &[(0, 6, 6, 0), (1, 2, 5, 20_000), (1, 4, 5, 80_000)];

/// The newest transaction has no chain; and it has one.
const BROKEN: &[Row] = &[(0, 3, 3, 0), (9, 1, 1, 0)];

const WHOLE: &[Row] = &[(0, 2, 2, 0), (0, 3, 3, 0), (9, 1, 1, 1_000)];

const CASES: [Case; 24] = [
    // the pieces up to the gap, and then those behind it
    (GAP, 1, M0 + 20_000, Some((2, 3))),
    (GAP_MERGED, 1, M0 + 60_000, Some((5, 6))),
    (GAP_MERGED, 1, M0 + 9_999, None),
    // the half minute of the first file, and the next
    (GAP, 1, M0 + 9_999, None),
    (GAP, 1, M0 + 10_000, Some((2, 3))),
    // the time is before the moment
    (GAP, 1, 0, None),
    // a level with nothing below it
    (GAP, 2, M0 + 90_000_000, None),
    (GAP_MERGED, 2, M0 + 90_000_000, Some((2, 3))),
    // five minutes of level 2
    (&[(1, 2, 3, 0)], 2, 299_999, None),
    (&[(1, 2, 3, 0)], 2, 300_000, Some((2, 3))),
    // an hour of level 3
    (&[(2, 2, 3, 0)], 3, 3_599_999, None),
    (&[(2, 2, 3, 0)], 3, 3_600_000, Some((2, 3))),
    // a run stops at the first file that doesn't go on, though a later one would
    (FORK, 1, 30_000, Some((2, 3))),
    // the last file of the level counts where no chain leads over it, and has the moment
    (NOWHERE, 1, 59_999, None),
    (NOWHERE, 1, 60_000, Some((8, 8))),
    // of two that end alike the first in the list has the moment
    (ALIKE, 1, 30_000, Some((6, 6))),
    (ALIKE, 1, 29_999, None),
    // level 9 takes what the newest transaction stands on
    (WHOLE, 9, 86_399_999, None),
    (WHOLE, 9, 86_400_000, Some((1, 3))),
    (BROKEN, 9, 172_800_000, None),
    // the newest transaction is in the level already
    (&[(9, 1, 1, 0)], 9, 172_800_000, None),
    // no names
    (&[], 1, 172_800_000, None),
    (&[], 9, 172_800_000, None),
    // the first file's moment where level 9 has none
    (&[(0, 1, 1, 0)], 9, 86_400_000, Some((1, 1))),
];

/// The name of the row, with its moment.
fn dated_of(row: Row) -> Result<Dated, Fail> {
    let min = Txid::new(row.1).ok_or("a first transaction")?;
    let max = Txid::new(row.2).ok_or("a last transaction")?;
    let name = FileName::new(row.0, min, max).ok_or("a name")?;
    Ok(Dated {
        name,
        moment: row.3,
    })
}

/// Whether the first stands before the other in list order.
fn is_before(first: &FileName, other: &FileName) -> bool
    ensures { result ≡ is_lt (list_order first.now other.now) }
{
    if first.level != other.level {
        return first.level < other.level;
    }
    if first.min != other.min {
        return first.min < other.min;
    }
    first.max < other.max
}

/// Whether the names stand in list order.
fn in_order(names: &[FileName]) -> bool
    ensures { IsTrue result → IsListOrdered names.now }
{
    for at in 1..names.len() {
        if is_before(&names[at], &names[at - 1]) {
            return false;
        }
    }
    true
}

/// The names without their moments.
fn names_in(alloc: Global, dated: &[Dated]) -> Result<Vec<FileName>, AllocError>
    ensures { IfOk result (λ names. names.items ≡ names_of dated.now) }
{
    dated.iter().map(|dated| dated.name).collect(alloc)
}

/// The first and the last transaction of the run that is due, where the case has a level of merged files.
fn due_of(alloc: Global, case: Case) -> Result<Option<(u64, u64)>, Fail> {
    let (rows, level, now, _) = case;
    let mut dated = Vec::new(alloc);
    for row in rows {
        dated.push(dated_of(*row)?)?;
    }
    if !in_order(&names_in(alloc, &dated)?) {
        return Err("a list in order".into());
    }
    if !(level == 1 || level == 2 || level == 3 || level == 9) {
        return Err("a level of merged files".into());
    }
    Ok(due(&dated, level, now).map(|run| (run.min.number(), run.max.number())))
}

#[test]
fn a_run_is_due_as_worked_out(rt: HostRuntime) -> Result<(), Fail> {
    for (place, case) in CASES.iter().enumerate() {
        let (_, _, _, expected) = *case;
        assert!(rt; due_of(rt.alloc(), *case)? == expected, "case {place}");
    }
    Ok(())
}
