//! An upkeep of which each call of the disk fails in turn.

use crate::replica::{FILES, LEFT, NOW, filled, has_exactly, is_sound, keep_up};
use crash_disk::Disk;
use std::test::*;

/// How many calls the list of the files and their headers make.
pub const LOOKS: u64 = 4;

/// More calls than the upkeep makes.
pub const CALLS: u64 = 400;

#[test]
fn a_fault_of_any_call_is_told_and_leaves_no_part(rt: HostRuntime) -> Result<(), Fail> {
    for call in 1..CALLS {
        let mut store = filled(rt.alloc(), &FILES)?;
        store.fail_at(LOOKS + call)?;
        let done = keep_up(rt.alloc(), &mut store, NOW)?.is_ok();
        assert_eq!(rt; done, store.faults() == 0, "call {call}");
        if done {
            return Ok(());
        }
        assert!(rt; is_sound(rt.alloc(), &mut store)?, "call {call}");
        assert!(rt;
            keep_up(rt.alloc(), &mut store, NOW)?.is_ok(),
            "call {call}, and again"
        );
        assert!(rt;
            has_exactly(rt.alloc(), &mut store, &LEFT)?,
            "call {call}, and again"
        );
    }
    Err(Fail::from("more calls than were expected"))
}
