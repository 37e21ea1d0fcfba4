//! An upkeep that a stop of the machine cuts off behind any call, and what a crash then leaves.

use crate::faults::{CALLS, LOOKS};
use crate::replica::{FILES, LEFT, NOW, filled, has_exactly, is_sound, keep_up};
use std::alloc::Global;
use std::process::Abort;
use std::test::*;

/// Whether the upkeep ended before the stop.
fn check(rt: &impl Abort, alloc: Global, calls: u64, choice: u64) -> Result<bool, Fail> {
    let mut store = filled(alloc, &FILES)?;
    store.stop_after(calls);
    let done = keep_up(alloc, &mut store, NOW)?.is_ok();
    store.crash(choice)?;
    assert!(rt;
        is_sound(alloc, &mut store)?,
        "stop after {calls}, choice {choice}"
    );
    assert!(rt;
        !done || has_exactly(alloc, &mut store, &LEFT)?,
        "stop after {calls}, choice {choice}"
    );
    Ok(done)
}

/// Stops behind each call, with two of the choices each.
fn check_all(rt: &impl Abort, alloc: Global, first: u64, second: u64) -> Result<(), Fail> {
    for calls in 0..CALLS {
        let done = check(rt, alloc, LOOKS + calls, first)?;
        check(rt, alloc, LOOKS + calls, second)?;
        if done {
            return Ok(());
        }
    }
    Err(Fail::from("more calls than were expected"))
}

#[test]
fn a_stop_that_takes_no_name_or_all_leaves_no_part(rt: HostRuntime) -> Result<(), Fail> {
    check_all(&rt, rt.alloc(), 0, 1)
}

#[test]
fn a_stop_of_the_second_pair_of_choices_leaves_no_part(rt: HostRuntime) -> Result<(), Fail> {
    check_all(&rt, rt.alloc(), 2, 3)
}

#[test]
fn a_stop_of_the_third_pair_of_choices_leaves_no_part(rt: HostRuntime) -> Result<(), Fail> {
    check_all(&rt, rt.alloc(), 4, 5)
}

#[test]
fn a_stop_of_the_last_pair_of_choices_leaves_no_part(rt: HostRuntime) -> Result<(), Fail> {
    check_all(&rt, rt.alloc(), 6, 7)
}
