//! Upkeeps that were worked out by hand.

use crate::file::Made;
use crate::replica::{
    FILES, LEFT, NOW, SECOND, THIRD, WHOLE, filled, has_exactly, is_there, keep_up,
};
use replica_store::read_name;
use replica_upkeep::{Upkeep, UpkeepStop};
use std::test::*;

/// 2023-11-14T22:13:20Z, 20 seconds past a half minute.
const M0: u64 = 1_700_000_000_000;

/// Pieces of which the fourth is missing, with the whole database as of 4.
const GAP: [Made; 6] = [
    Made {
        moment: M0 + 1_000,
        ..SECOND
    },
    Made {
        moment: M0 + 2_000,
        ..THIRD
    },
    Made {
        path: "ltx/0/0000000000000005-0000000000000005.ltx",
        min: 5,
        max: 5,
        moment: M0 + 4_000,
        ..SECOND
    },
    Made {
        path: "ltx/0/0000000000000006-0000000000000006.ltx",
        min: 6,
        max: 6,
        moment: M0 + 5_000,
        ..THIRD
    },
    Made {
        moment: M0,
        ..WHOLE
    },
    Made {
        path: "ltx/9/0000000000000001-0000000000000004.ltx",
        max: 4,
        moment: M0 + 3_000,
        ..WHOLE
    },
];

/// Each upkeep merges one more run of pieces.
const MERGED: [(u64, Made); 2] = [
    (
        M0 + 20_000,
        Made {
            path: "ltx/1/0000000000000002-0000000000000003.ltx",
            min: 2,
            moment: M0 + 2_000,
            index: true,
            ..THIRD
        },
    ),
    (
        M0 + 60_000,
        Made {
            path: "ltx/1/0000000000000005-0000000000000006.ltx",
            min: 5,
            max: 6,
            moment: M0 + 5_000,
            index: true,
            ..THIRD
        },
    ),
];

#[test]
fn each_level_takes_in_a_run_and_old_files_go(rt: HostRuntime) -> Result<(), Fail> {
    let mut store = filled(rt.alloc(), &FILES)?;
    let done = keep_up(rt.alloc(), &mut store, NOW)?;
    let wanted = Upkeep {
        merged: 4,
        dropped: 2,
        lost: 2,
    };
    assert_eq!(rt; done, Ok(wanted));
    assert!(rt; has_exactly(rt.alloc(), &mut store, &LEFT)?);
    Ok(())
}

#[test]
fn a_run_ends_at_a_gap_and_the_next_is_due_later(rt: HostRuntime) -> Result<(), Fail> {
    let mut store = filled(rt.alloc(), &GAP)?;
    for (now, made) in &MERGED {
        let done = keep_up(rt.alloc(), &mut store, *now)?;
        let wanted = Upkeep {
            merged: 1,
            dropped: 0,
            lost: 0,
        };
        assert_eq!(rt; done, Ok(wanted), "{now}");
        assert!(rt; is_there(rt.alloc(), &mut store, made)?, "{now}");
    }
    Ok(())
}

#[test]
fn the_first_damaged_file_is_told(rt: HostRuntime) -> Result<(), Fail> {
    let mut store = filled(rt.alloc(), &[SECOND, WHOLE])?;
    let bytes = crate::file::bytes_of(rt.alloc(), &THIRD)?;
    store.put_file(THIRD.path, bytes.split_last().ok_or("bytes")?.1)?;
    let third = read_name(THIRD.path).ok_or("a name")?;
    let done = keep_up(rt.alloc(), &mut store, NOW)?;
    assert!(rt; matches!(done, Err(UpkeepStop::Damaged(name, _)) if name == third));
    Ok(())
}
