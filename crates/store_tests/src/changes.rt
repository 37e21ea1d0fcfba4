//! Reading a file, dropping one, and what a put that isn't finished leaves.

use crate::content::{DRAFT, PATH, name_of, reads};
use crate::putting::{WHOLE, put_and_abandon, put_in_two};
use crash_disk::{Disk, MemDisk};
use replica_store::{drop_file, get, settle};
use std::alloc::Global;
use std::process::Abort;
use std::test::Fail;

#[test]
fn a_file_is_read_whole_and_an_absent_one_is_empty(rt: HostRuntime) -> Result<(), Fail> {
    let mut store = MemDisk::new(rt.alloc());
    let name = name_of(PATH)?;
    assert_eq!(rt;
        get(rt.alloc(), &mut store, &name)?.as_slice(),
        b"".as_slice()
    );
    store.put_file(PATH, b"older")?;
    assert_eq!(rt;
        get(rt.alloc(), &mut store, &name)?.as_slice(),
        b"older".as_slice()
    );
    Ok(())
}

/// Whether a crash by the choice behind a drop leaves the file. The names are settled first or not.
fn stays(alloc: Global, settled: bool, choice: u64) -> Result<bool, Fail> {
    let name = name_of(PATH)?;
    let mut store = MemDisk::new(alloc);
    store.put_file(PATH, b"older")?;
    drop_file(&mut store, &name)?;
    if settled {
        settle(&mut store)?;
    }
    store.crash(choice)?;
    reads(alloc, &mut store, &name, Some("older"))
}

#[test]
fn a_dropped_file_is_gone_for_good_once_settled(rt: HostRuntime) -> Result<(), Fail> {
    assert!(rt; stays(rt.alloc(), false, 0)?);
    assert!(rt; !stays(rt.alloc(), false, 1)?);
    for choice in 0..8 {
        assert!(rt; !stays(rt.alloc(), true, choice)?, "choice {choice}");
    }
    Ok(())
}

#[test]
fn an_abandoned_put_leaves_the_older_file_alone(rt: HostRuntime) -> Result<(), Fail> {
    let mut store = MemDisk::new(rt.alloc());
    let name = name_of(PATH)?;
    store.put_file(PATH, b"older")?;
    put_and_abandon(&mut store, &name)?;
    assert_eq!(rt; store.size(DRAFT)?, None);
    assert!(rt; reads(rt.alloc(), &mut store, &name, Some("older"))?);
    Ok(())
}

#[test]
fn a_temporary_file_left_by_a_stop_is_replaced(rt: HostRuntime) -> Result<(), Fail> {
    let mut store = MemDisk::new(rt.alloc());
    let name = name_of(PATH)?;
    store.stop_after(3);
    assert!(rt; put_in_two(&mut store, &name).is_err());
    store.crash(1)?;
    assert_eq!(rt; store.size(DRAFT)?, Some(6));
    put_in_two(&mut store, &name)?;
    assert_eq!(rt; store.size(DRAFT)?, None);
    assert!(rt; reads(rt.alloc(), &mut store, &name, Some(WHOLE))?);
    Ok(())
}
