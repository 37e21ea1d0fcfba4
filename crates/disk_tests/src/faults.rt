//! Calls that fail because they are to, by their number or behind a stop, and calls that pass.

use crate::content::reads;
use crate::step::Change::{Append, Cut, RenameTo, Sync, WriteAt};
use crate::step::Step::{self, Attach, Create, Names, On, Read, Remove, Size, SyncNames};
use crate::step::{make, run};
use crash_disk::{Disk, MemDisk};
use std::alloc::Global;
use std::process::Abort;
use std::test::Fail;

/// A call, and what stands under "a" and "b" after it where "a" held "old" before.
struct Row {
    step: Step,
    a: Option<&'static str>,
    b: Option<&'static str>,
}

const ROWS: [Row; 12] = [
    Row {
        step: Attach,
        a: Some("old"),
        b: None,
    },
    Row {
        step: Names,
        a: Some("old"),
        b: None,
    },
    Row {
        step: Size("a"),
        a: Some("old"),
        b: None,
    },
    Row {
        step: Read("a"),
        a: Some("old"),
        b: None,
    },
    Row {
        step: Create("b"),
        a: Some("old"),
        b: Some(""),
    },
    Row {
        step: On("a", Append("er")),
        a: Some("older"),
        b: None,
    },
    Row {
        step: On("a", WriteAt(1, "x")),
        a: Some("oxd"),
        b: None,
    },
    Row {
        step: On("a", Cut(1)),
        a: Some("o"),
        b: None,
    },
    Row {
        step: On("a", Sync),
        a: Some("old"),
        b: None,
    },
    Row {
        step: On("a", RenameTo("b")),
        a: None,
        b: Some("old"),
    },
    Row {
        step: Remove("a"),
        a: None,
        b: None,
    },
    Row {
        step: SyncNames,
        a: Some("old"),
        b: None,
    },
];

/// Makes the call, as one call, where "a" was placed just before. Whether it was Ok.
fn passes(disk: &mut MemDisk, alloc: Global, step: &Step) -> Result<bool, Fail> {
    disk.put_file("a", b"old")?;
    Ok(match step {
        On(_, change) => make(disk, "a", change).is_ok(),
        other => run(disk, alloc, other).is_ok(),
    })
}

/// Whether these stand under "a" and "b".
fn has(disk: &mut MemDisk, a: Option<&str>, b: Option<&str>) -> Result<bool, Fail> {
    Ok(reads(disk, "a", a)? && reads(disk, "b", b)?)
}

fn check(rt: &impl Abort, alloc: Global, number: usize, row: &Row) -> Result<(), Fail> {
    let mut disk = MemDisk::new(alloc);
    disk.fail_at(1)?;
    assert!(rt; !passes(&mut disk, alloc, &row.step)?, "call {number}");
    assert!(rt; has(&mut disk, Some("old"), None)?, "call {number}");
    disk.crash(1)?;
    assert!(rt; has(&mut disk, Some("old"), None)?, "call {number}");
    assert!(rt; passes(&mut disk, alloc, &row.step)?, "call {number}");
    assert!(rt; has(&mut disk, row.a, row.b)?, "call {number}");
    assert_eq!(rt; disk.faults(), 1, "call {number}");
    assert_eq!(rt; disk.starved(), 0, "call {number}");
    Ok(())
}

#[test]
fn a_call_of_a_named_number_fails_and_changes_nothing(rt: HostRuntime) -> Result<(), Fail> {
    for (number, row) in ROWS.iter().enumerate() {
        check(&rt, rt.alloc(), number, row)?;
    }
    Ok(())
}

const EIGHT_CALLS: [Step; 8] = [
    Attach,
    Create("b"),
    On("a", Append("er")),
    On("a", WriteAt(1, "x")),
    On("a", Sync),
    On("a", RenameTo("b")),
    Remove("b"),
    SyncNames,
];

/// What a crash that takes all leaves under "b" where the calls were stopped after 0 of them, after 1, ..
const LEFT: [Option<&str>; 9] = [
    None,
    None,
    Some(""),
    Some(""),
    Some(""),
    Some(""),
    Some("old"),
    None,
    None,
];

/// Whether each of the eight calls passes exactly where its number, from 0 on, is below the count.
fn pass_up_to(disk: &mut MemDisk, alloc: Global, count: usize) -> Result<bool, Fail> {
    for (number, step) in EIGHT_CALLS.iter().enumerate() {
        if passes(disk, alloc, step)? != (number < count) {
            return Ok(false);
        }
    }
    Ok(true)
}

#[test]
fn a_stop_lets_so_many_calls_pass_until_a_crash(rt: HostRuntime) -> Result<(), Fail> {
    for (count, left) in LEFT.iter().enumerate() {
        let mut disk = MemDisk::new(rt.alloc());
        disk.stop_after(count as u64);
        assert!(rt;
            pass_up_to(&mut disk, rt.alloc(), count)?,
            "stop after {count}"
        );
        assert_eq!(rt;
            disk.faults(),
            8u64.saturating_sub(count as u64),
            "stop after {count}"
        );
        disk.crash(1)?;
        assert!(rt; reads(&mut disk, "b", *left)?, "stop after {count}");
        assert!(rt;
            pass_up_to(&mut disk, rt.alloc(), 8)?,
            "crash after {count}"
        );
    }
    Ok(())
}
