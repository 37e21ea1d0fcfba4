//! The plans beside those of a slow program that lists every chain.

ghost use Rattle.std.specs.Prelude.{◌≡◌, IfOk, IsTrue};
ghost use Rattle.std.specs.Ordering.{is_lt};
ghost use Rattle.replica_store.specs.Chain.{IsListOrdered, list_order, names_of};

use super::*;
use ls_base::Txid;
use replica_store::{Dated, FileName};
use std::alloc::{AllocError, Global};
use std::test::*;

/// Names in list order: level, first and last transaction, and moment.
const LISTS: [[(u8, u64, u64, u64); 8]; 5] = [
    // each level, and a gap at 5
    [
        (0, 2, 2, 10),
        (0, 3, 3, 20),
        (0, 6, 6, 50),
        (1, 2, 3, 20),
        (1, 6, 7, 60),
        (2, 2, 4, 30),
        (3, 7, 8, 70),
        (9, 1, 1, 0),
    ],
    // files that reach as far, from several levels and beginnings
    [
        (0, 2, 4, 40),
        (0, 3, 4, 20),
        (0, 5, 5, 50),
        (1, 2, 4, 30),
        (1, 3, 4, 10),
        (2, 4, 6, 60),
        (9, 1, 2, 20),
        (9, 1, 3, 30),
    ],
    // ranges that overlap, and one file twice
    [
        (0, 1, 1, 10),
        (0, 2, 5, 20),
        (0, 3, 4, 30),
        (0, 3, 4, 30),
        (1, 1, 3, 15),
        (1, 4, 7, 40),
        (2, 6, 8, 50),
        (3, 1, 6, 25),
    ],
    // no beginning
    [
        (0, 2, 2, 10),
        (0, 3, 3, 20),
        (0, 4, 4, 30),
        (1, 2, 3, 20),
        (1, 4, 5, 30),
        (2, 2, 4, 40),
        (2, 5, 6, 50),
        (3, 2, 6, 60),
    ],
    // moments that fall
    [
        (0, 2, 2, 90),
        (0, 3, 3, 10),
        (0, 4, 4, 50),
        (0, 5, 5, 20),
        (1, 2, 2, 5),
        (1, 4, 5, 70),
        (9, 1, 1, 30),
        (9, 1, 3, 60),
    ],
];

/// The names of the rows, with their moments.
fn dated_of(alloc: Global, rows: &[(u8, u64, u64, u64)]) -> Result<Vec<Dated>, Fail> {
    let mut dated = Vec::new(alloc);
    for (level, min, max, moment) in rows {
        let min = Txid::new(*min).ok_or("a first transaction")?;
        let max = Txid::new(*max).ok_or("a last transaction")?;
        let name = FileName::new(*level, min, max).ok_or("a name")?;
        dated.push(Dated {
            name,
            moment: *moment,
        })?;
    }
    Ok(dated)
}

/// The names without their moments.
fn names_in(alloc: Global, dated: &[Dated]) -> Result<Vec<FileName>, AllocError>
    ensures { IfOk result (λ names. names.items ≡ names_of dated.now) }
{
    dated.iter().map(|dated| dated.name).collect(alloc)
}

/// Whether the first stands before the other in list order.
fn is_before(first: &FileName, other: &FileName) -> bool
    ensures { result ≡ is_lt (list_order first.now other.now) }
{
    if first.level != other.level {
        return first.level < other.level;
    }
    if first.min != other.min {
        return first.min < other.min;
    }
    first.max < other.max
}

/// Whether the names stand in list order.
fn in_order(names: &[FileName]) -> bool
    ensures { IsTrue result → IsListOrdered names.now }
{
    for at in 1..names.len() {
        if is_before(&names[at], &names[at - 1]) {
            return false;
        }
    }
    true
}

/// The transaction that some of the names lead to, one after the other, or `None` where they make no chain. The
/// names stand in the order of their ends; the binary digits of `some` say which of them are taken.
fn end_of(by_end: &[FileName], some: u32) -> Option<u64> {
    let mut rest = some;
    let mut end = 0;
    for name in by_end {
        if rest % 2 == 1 {
            if name.min.number() - 1 > end || name.max.number() <= end {
                return None;
            }
            end = name.max.number();
        }
        rest /= 2;
    }
    Some(end)
}

/// These names.
fn chain_of(alloc: Global, by_end: &[FileName], some: u32) -> Result<Vec<FileName>, AllocError> {
    let mut rest = some;
    let mut chain = Vec::new(alloc);
    for name in by_end {
        if rest % 2 == 1 {
            chain.push(*name)?;
        }
        rest /= 2;
    }
    Ok(chain)
}

/// Whether at the first difference the chain reaches further than the other, or as far from a higher level, or
/// as far from that level and begins later.
fn is_preferred(chain: &[FileName], other: &[FileName]) -> bool {
    for (one, two) in chain.iter().zip(other) {
        if one.max != two.max {
            return one.max > two.max;
        }
        if one.level != two.level {
            return one.level > two.level;
        }
        if one.min != two.min {
            return one.min > two.min;
        }
    }
    true
}

/// Whether some of the names lead to t.
fn is_reached(by_end: &[FileName], t: u64) -> bool {
    (0..256).any(|some| end_of(by_end, some) == Some(t))
}

/// The greatest transaction below t that some of the names lead to, 0 where there is none.
fn greatest_below(by_end: &[FileName], t: u64) -> u64 {
    let mut greatest = 0;
    for other in 1..t {
        if is_reached(by_end, other) {
            greatest = other;
        }
    }
    greatest
}

/// Whether the chain leads to t and is preferred to each chain that does.
fn is_chosen(alloc: Global, by_end: &[FileName], chain: &[FileName], t: u64) -> Result<bool, Fail> {
    if end_of(chain, 255) != Some(t) {
        return Ok(false);
    }
    for some in 0..256 {
        if end_of(by_end, some) == Some(t)
            && !is_preferred(chain, &chain_of(alloc, by_end, some)?)
        {
            return Ok(false);
        }
    }
    Ok(true)
}

#[test]
fn plans_are_the_chosen_of_all_chains(rt: HostRuntime) -> Result<(), Fail> {
    for rows in &LISTS {
        let dated = dated_of(rt.alloc(), rows)?;
        let names = names_in(rt.alloc(), &dated)?;
        let mut by_end = names_in(rt.alloc(), &dated)?;
        by_end.sort_by_key(|name| name.max.number())?;
        assert!(rt; in_order(&names));
        for t in 1..10 {
            let txid = Txid::new(t).ok_or("a transaction")?;
            let planned = plan(rt.alloc(), &names, txid);
            assert_eq!(rt; retained(&names, txid), is_reached(&by_end, t), "at {t}");
            assert_eq!(rt; planned.is_ok(), is_reached(&by_end, t), "at {t}");
            let after = greatest_below(&by_end, t);
            let missing = planned.as_ref().err() == Some(&PlanFault::MissingRange { after });
            assert_eq!(rt; missing, !is_reached(&by_end, t), "at {t}");
            if let Ok(chain) = planned {
                assert!(rt;
                    is_chosen(rt.alloc(), &by_end, chain.as_slice(), t)?,
                    "at {t}"
                );
            }
        }
    }
    Ok(())
}

/// The greatest transaction that some of the names lead to and whose first name in the list is told no later.
fn slow_last(dated: &[Dated], by_end: &[FileName], moment: u64) -> u64 {
    let mut last = 0;
    for t in 1..10 {
        let first = dated.iter().find(|dated| dated.name.max.number() == t);
        if first.is_some_and(|dated| dated.moment <= moment) && is_reached(by_end, t) {
            last = t;
        }
    }
    last
}

#[test]
fn the_last_at_a_moment_is_that_of_all_chains(rt: HostRuntime) -> Result<(), Fail> {
    for rows in &LISTS {
        let dated = dated_of(rt.alloc(), rows)?;
        let names = names_in(rt.alloc(), &dated)?;
        let mut by_end = names_in(rt.alloc(), &dated)?;
        by_end.sort_by_key(|name| name.max.number())?;
        assert!(rt; in_order(&names));
        for moment in 0..100 {
            let last = last_at(&dated, moment).map_or(0, |t| t.number());
            assert_eq!(rt; last, slow_last(&dated, &by_end, moment), "at {moment}");
        }
    }
    Ok(())
}

/// A file from transaction 5 to 6, and the whole database as of 4.
const GAP: [(u8, u64, u64, u64); 2] = [(1, 5, 6, 0), (9, 1, 4, 0)];

#[test]
fn a_missing_range_begins_after_the_last_retained_transaction(rt: HostRuntime) -> Result<(), Fail> {
    let names = names_in(rt.alloc(), &dated_of(rt.alloc(), &GAP)?)?;
    assert!(rt; in_order(&names));
    let five = plan(rt.alloc(), &names, Txid::new(5).ok_or("a transaction")?);
    assert!(rt; five.err() == Some(PlanFault::MissingRange { after: 4 }));
    let six = plan(rt.alloc(), &names, Txid::new(6).ok_or("a transaction")?)?;
    assert_eq!(rt; six.as_slice().len(), 2);
    assert!(rt; six.as_slice().first() == names.get(1));
    assert!(rt; six.as_slice().last() == names.first());
    Ok(())
}

/// A piece told at the moment of the whole database before it, 2023-11-14T22:13:20Z.
const SAME_MOMENT: [(u8, u64, u64, u64); 2] = [
    (0, 2, 2, 1_700_000_000_000),
    (9, 1, 1, 1_700_000_000_000),
];

#[test]
fn a_moment_counts_for_the_last_transaction_at_it(rt: HostRuntime) -> Result<(), Fail> {
    let dated = dated_of(rt.alloc(), &SAME_MOMENT)?;
    assert!(rt; in_order(&names_in(rt.alloc(), &dated)?));
    let last = last_at(&dated, 1_700_000_000_000);
    assert!(rt; last.is_some_and(|t| t.number() == 2));
    assert!(rt; last_at(&dated, 1_699_999_999_999).is_none());
    Ok(())
}
