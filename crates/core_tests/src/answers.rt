//! What each line answers, prints and leaves.

use crate::carrying::carried_out;
use crate::files::{disk_of, disk_with, holds};
use crate::rows::{ABSENT, CHAINS, FORMS, GROWTH, MISSING, MOMENTS, OUTPUTS, Row, WORDS};
use crash_disk::MemOut;
use std::alloc::Global;
use std::process::Abort;
use std::test::Fail;

fn check(rt: &impl Abort, alloc: Global, row: &Row) -> Result<(), Fail> {
    let mut store = disk_of(alloc, row.replica)?;
    let mut target = disk_with(alloc, row.there)?;
    let mut out = MemOut::new(alloc);
    let outcome = carried_out(alloc, row.line, &mut store, &mut target, &mut out)?;
    assert!(rt; outcome.why == row.why, "{}", row.line);
    assert!(rt; outcome.status == row.status, "{}", row.line);
    assert!(rt; out.bytes() == row.text.as_bytes(), "{}", row.line);
    assert!(rt; holds(alloc, &mut target, row.left)?, "{}", row.line);
    Ok(())
}

fn check_each(rt: &impl Abort, alloc: Global, rows: &[Row]) -> Result<(), Fail> {
    for row in rows {
        check(rt, alloc, row)?;
    }
    Ok(())
}

#[test]
fn words_come_in_each_order_and_form(rt: HostRuntime) -> Result<(), Fail> {
    check_each(&rt, rt.alloc(), &FORMS)
}

#[test]
fn an_output_that_is_there_is_left_as_it_is(rt: HostRuntime) -> Result<(), Fail> {
    check_each(&rt, rt.alloc(), &OUTPUTS)
}

#[test]
fn a_replica_without_files_is_told(rt: HostRuntime) -> Result<(), Fail> {
    check_each(&rt, rt.alloc(), &ABSENT)
}

#[test]
fn a_transaction_without_a_chain_is_told(rt: HostRuntime) -> Result<(), Fail> {
    check_each(&rt, rt.alloc(), &MISSING)
}

#[test]
fn a_chain_of_files_is_restored(rt: HostRuntime) -> Result<(), Fail> {
    check_each(&rt, rt.alloc(), &CHAINS)
}

#[test]
fn a_database_grows_and_shrinks(rt: HostRuntime) -> Result<(), Fail> {
    check_each(&rt, rt.alloc(), &GROWTH)
}

#[test]
fn the_last_transaction_of_a_moment_is_restored(rt: HostRuntime) -> Result<(), Fail> {
    check_each(&rt, rt.alloc(), &MOMENTS)
}

#[test]
fn bad_words_and_other_commands_are_told(rt: HostRuntime) -> Result<(), Fail> {
    check_each(&rt, rt.alloc(), &WORDS)
}
