//! What is said of refusals.

use crate::carrying::carried_out_telling;
use crate::files::{Replica, disk_of, disk_with};
use crash_disk::MemOut;
use litestream_core::Why;
use std::alloc::Global;
use std::process::Abort;
use std::test::Fail;

/// A line, the replica, the bytes of the pages of the output that is there before, what is said, and the status.
type Told = (&'static str, Replica, &'static [u8], &'static str, u8);

const TOLD: [Told; 10] = [
    (
        "restore -o",
        Replica::Whole,
        &[],
        "litestream: usage: flag needs a value: \n",
        2,
    ),
    (
        "restor",
        Replica::Whole,
        &[],
        "litestream: usage: unknown command: restor\n",
        2,
    ),
    (
        "restore -o D/o -txid=0 R",
        Replica::Whole,
        &[],
        "litestream: usage: bad txid: -txid=0\n",
        2,
    ),
    (
        "replicate d R",
        Replica::Empty,
        &[],
        "litestream: database header: 0 bytes\n",
        1,
    ),
    (
        "demo",
        Replica::Whole,
        &[],
        "litestream: not built yet\n",
        2,
    ),
    (
        "restore -o D/o R",
        Replica::Empty,
        &[],
        "litestream: no replica\n",
        1,
    ),
    (
        "restore -o D/o -if-replica-exists R",
        Replica::Empty,
        &[],
        "",
        0,
    ),
    (
        "restore -o D/o -txid 5 R",
        Replica::Runs,
        &[],
        "litestream: missing range after 0000000000000004\n",
        1,
    ),
    (
        "restore -o D/o R",
        Replica::Whole,
        &[0x11, 0x22],
        "litestream: output exists: 1024 bytes\n",
        1,
    ),
    ("ltx R", Replica::Whole, &[], "", 0),
];

/// Carries the line out where the call of this number on the error output fails. Whether this was
/// said, and the status is the line's.
fn is_said(alloc: Global, row: &Told, failing: u64, said: &str) -> Result<bool, Fail> {
    let mut store = disk_of(alloc, row.1)?;
    let mut target = disk_with(alloc, row.2)?;
    let mut out = MemOut::new(alloc);
    let mut err = MemOut::new(alloc);
    err.fail_at(failing)?;
    let outcome = carried_out_telling(alloc, row.0, &mut store, &mut target, &mut out, &mut err)?;
    if outcome.why == Why::Memory || outcome.status != row.4 {
        return Ok(false);
    }
    Ok(err.bytes() == said.as_bytes())
}

fn check_each(rt: &impl Abort, alloc: Global, rows: &[Told]) -> Result<(), Fail> {
    for row in rows {
        assert!(rt; is_said(alloc, row, 9, row.3)?, "{}", row.0);
    }
    Ok(())
}

#[test]
fn each_refusal_says_why(rt: HostRuntime) -> Result<(), Fail> {
    check_each(&rt, rt.alloc(), &TOLD)
}

#[test]
fn an_error_output_that_fails_changes_no_answer(rt: HostRuntime) -> Result<(), Fail> {
    let row = (
        "restore -o D/o R",
        Replica::Empty,
        b"".as_slice(),
        "litestream: no replica\n",
        1,
    );
    assert!(rt; is_said(rt.alloc(), &row, 1, "")?);
    Ok(())
}
