//! The line of the newest transaction, worked out apart from the program.

use crate::newest_line;
use crash_disk::{Disk, MemDisk};
use ls_base::{Line, Place};
use ltx_format::LtxFault;
use replica_store::{Damage, StoreError, read_name};
use std::alloc::{AllocError, Global};
use std::process::Abort;
use std::test::*;

/// A file: its name, its first and last transaction, and its moment.
type File = (&'static str, u64, u64, u64);

const WHOLE: File = ("ltx/9/0000000000000001-0000000000000001.ltx", 1, 1, 10);

const BOTH: File = ("ltx/9/0000000000000001-0000000000000002.ltx", 1, 2, 30);

const PIECE: File = ("ltx/0/0000000000000002-0000000000000002.ltx", 2, 2, 20);

const BEHIND_A_GAP: File = ("ltx/0/0000000000000004-0000000000000004.ltx", 4, 4, 40);

/// The header of the file, with a place at rest.
fn header(alloc: Global, file: &File) -> Result<Vec<u8>, AllocError> {
    let mut bytes = Vec::from_slice(alloc, b"LTX1\0\0\0\x02\0\0\x02\0\0\0\0\x02")?;
    bytes.extend_from_slice(&file.1.to_be_bytes())?;
    bytes.extend_from_slice(&file.2.to_be_bytes())?;
    bytes.extend_from_slice(&file.3.to_be_bytes())?;
    bytes.extend_from_slice(&[0; 40])?;
    bytes.extend_from_slice(b"\x80\0\0\0\0\0\0\x07\0\0\0\0\0\0\0\0\0\0\0\0")?;
    Ok(bytes)
}

fn store_of(alloc: Global, files: &[File]) -> Result<MemDisk, Fail> {
    let mut store = MemDisk::new(alloc);
    for file in files {
        store.put_file(file.0, &header(alloc, file)?)?;
    }
    Ok(store)
}

/// The moment of the line that is found.
fn found(alloc: Global, files: &[File]) -> Result<Option<u64>, Fail> {
    let line = newest_line(alloc, &mut store_of(alloc, files)?)?;
    Ok(line.map(|line| line.moment))
}

fn check_lines(rt: &impl Abort, alloc: Global) -> Result<(), Fail> {
    assert!(rt; found(alloc, &[])? == None);
    assert!(rt; found(alloc, &[WHOLE])? == Some(10));
    assert!(rt; found(alloc, &[WHOLE, PIECE])? == Some(20));
    assert!(rt; found(alloc, &[BOTH, PIECE])? == Some(20));
    assert!(rt; found(alloc, &[WHOLE, PIECE, BEHIND_A_GAP])? == None);
    assert!(rt; found(alloc, &[PIECE])? == None);
    let line = newest_line(alloc, &mut store_of(alloc, &[WHOLE])?)?;
    let place = Place::Rest {
        sum: 0x8000_0000_0000_0007,
    };
    assert!(rt; line == Some(Line { place, moment: 10 }));
    Ok(())
}

#[test]
fn the_newest_line_is_read_where_it_is_retained(rt: HostRuntime) -> Result<(), Fail> {
    check_lines(&rt, rt.alloc())?;
    let mut store = store_of(rt.alloc(), &[WHOLE, PIECE])?;
    store.put_file(PIECE.0, b"LTX1")?;
    let name = read_name(PIECE.0).ok_or("a name")?;
    let short = StoreError::Damaged(name, Damage::File(LtxFault::Short));
    assert!(rt; newest_line(rt.alloc(), &mut store) == Err(short));
    for call in 1..3 {
        let mut store = store_of(rt.alloc(), &[WHOLE, PIECE])?;
        store.fail_at(call)?;
        let failed = matches!(
            newest_line(rt.alloc(), &mut store),
            Err(StoreError::Store(_))
        );
        assert!(rt; failed && store.faults() == 1, "call {call}");
    }
    Ok(())
}
