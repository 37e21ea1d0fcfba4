//! A put of which one call fails.

use crate::content::{DRAFT, PATH, name_of, reads};
use crate::putting::{CALLS, WHOLE, put_in_two};
use crash_disk::{Disk, MemDisk};
use std::alloc::Global;
use std::process::Abort;
use std::test::Fail;

/// A call of a put that fails, and what it leaves.
struct Row {
    call: u64,
    file: Option<&'static str>,
    draft: bool,
}

/// The calls in their order: remove and create the temporary file, append twice, sync, rename, sync the names. After
/// a fault of an append the temporary file is removed.
const ROWS: [Row; 7] = [
    Row {
        call: 1,
        file: None,
        draft: false,
    },
    Row {
        call: 2,
        file: None,
        draft: false,
    },
    Row {
        call: 3,
        file: None,
        draft: false,
    },
    Row {
        call: 4,
        file: None,
        draft: false,
    },
    Row {
        call: 5,
        file: None,
        draft: true,
    },
    Row {
        call: 6,
        file: None,
        draft: true,
    },
    Row {
        call: 7,
        file: Some(WHOLE),
        draft: false,
    },
];

fn check(rt: &impl Abort, alloc: Global, row: &Row) -> Result<(), Fail> {
    let name = name_of(PATH)?;
    let mut store = MemDisk::new(alloc);
    store.fail_at(row.call)?;
    assert!(rt; put_in_two(&mut store, &name).is_err(), "call {}", row.call);
    assert_eq!(rt; store.faults(), 1, "call {}", row.call);
    assert!(rt;
        reads(alloc, &mut store, &name, row.file)?,
        "call {}",
        row.call
    );
    assert_eq!(rt;
        store.size(DRAFT)?.is_some(),
        row.draft,
        "call {}",
        row.call
    );
    put_in_two(&mut store, &name)?;
    assert!(rt;
        reads(alloc, &mut store, &name, Some(WHOLE))?,
        "again after call {}",
        row.call
    );
    assert_eq!(rt; store.size(DRAFT)?, None, "again after call {}", row.call);
    Ok(())
}

#[test]
fn a_put_with_a_failing_call_fails_and_the_next_passes(rt: HostRuntime) -> Result<(), Fail> {
    for row in &ROWS {
        check(&rt, rt.alloc(), row)?;
    }
    Ok(())
}
