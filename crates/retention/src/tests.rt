//! Small lists whose outcome was worked out by hand.

use super::*;
use ls_base::Txid;
use replica_store::{Dated, FileName};
use std::alloc::Global;
use std::test::*;

/// A name with its moment: level, first and last transaction, and moment.
type Row = (u8, u64, u64, u64);

/// A list, a cut, the places of the names that are dropped, and the transactions that are lost.
type Case = (&'static [Row], u64, &'static [usize], &'static [u64]);

const CASES: [Case; 12] = [
    // by age alone the chain to 3 would break
    (
        &[(0, 2, 2, 2_000), (0, 3, 3, 20_000_000), (9, 1, 1, 1_000)],
        13_600_000,
        &[],
        &[],
    ),
    // a whole file to 3 serves in their stead
    (
        &[
            (0, 2, 2, 2_000),
            (0, 3, 3, 20_000_000),
            (9, 1, 1, 1_000),
            (9, 1, 3, 20_000_000),
        ],
        13_600_000,
        &[0, 2],
        &[1, 2],
    ),
    // no names
    (&[], 100, &[], &[]),
    // all are old: the newest transaction stays
    (&[(0, 1, 1, 10), (0, 2, 2, 20)], 100, &[], &[]),
    // and of two ways to it the one that comes later in the list
    (
        &[(0, 1, 1, 10), (0, 2, 2, 20), (1, 1, 2, 20)],
        100,
        &[0, 1],
        &[1],
    ),
    // all are young
    (&[(0, 1, 1, 500), (0, 2, 2, 600)], 100, &[], &[]),
    // a moment equal to the cut is young
    (&[(9, 1, 1, 100), (9, 1, 2, 200)], 100, &[], &[]),
    (&[(9, 1, 1, 100), (9, 1, 2, 200)], 101, &[0], &[1]),
    // nothing is retained, as there is no beginning
    (&[(0, 2, 2, 5), (0, 3, 3, 300)], 100, &[0], &[]),
    // the moment of 2 is that of the first name that ends with it, though a later one is young
    (
        &[(0, 1, 2, 50), (1, 2, 2, 300), (9, 1, 1, 10), (9, 1, 3, 400)],
        100,
        &[0, 2],
        &[1, 2],
    ),
    // an old name of a young transaction that another one ends with goes, and nothing is lost
    (
        &[(0, 1, 2, 300), (1, 1, 2, 50), (9, 1, 3, 400)],
        100,
        &[1],
        &[],
    ),
    // ranges that overlap: 5 needs 3, which needs 1, and 4 goes
    (
        &[(0, 1, 1, 10), (0, 2, 3, 20), (0, 3, 4, 30), (0, 4, 5, 600)],
        100,
        &[2],
        &[4],
    ),
];

/// The name of the row, with its moment.
fn dated_of(row: Row) -> Result<Dated, Fail> {
    let min = Txid::new(row.1).ok_or("a first transaction")?;
    let max = Txid::new(row.2).ok_or("a last transaction")?;
    let name = FileName::new(row.0, min, max).ok_or("a name")?;
    Ok(Dated {
        name,
        moment: row.3,
    })
}

/// Whether the drops of the rows are those at these places, with the loss of these transactions.
fn drops_as_told(alloc: Global, case: Case) -> Result<bool, Fail> {
    let (rows, cut, places, lost) = case;
    let mut dated = Vec::new(alloc);
    for row in rows {
        dated.push(dated_of(*row)?)?;
    }
    let drops = drops(alloc, dated.as_slice(), cut)?;
    let mut names = Vec::new(alloc);
    for place in places {
        let one = dated.get(*place).ok_or("a place in the list")?;
        names.push(one.name)?;
    }
    let mut transactions = Vec::new(alloc);
    for t in lost {
        transactions.push(Txid::new(*t).ok_or("a transaction")?)?;
    }
    Ok(drops.names() == names.as_slice() && drops.lost() == transactions.as_slice())
}

#[test]
fn drops_what_no_protected_transaction_needs(rt: HostRuntime) -> Result<(), Fail> {
    for (place, case) in CASES.iter().enumerate() {
        assert!(rt; drops_as_told(rt.alloc(), *case)?, "case {place}");
    }
    Ok(())
}
