//! Listings of replicas, worked out apart from the program.

use super::*;
use crash_disk::{MemDisk, MemOut};
use ls_answers::Why;
use ltx_format::LtxFault;
use replica_store::{Damage, read_name};
use std::alloc::{AllocError, Global};
use std::process::Abort;
use std::test::*;

const PIECE: &str = "ltx/0/0000000000000002-0000000000000002.ltx";

const WHOLE: &str = "ltx/9/0000000000000001-0000000000000001.ltx";

/// Names that no file of a replica has.
const FOREIGN: [&str; 4] = [
    "ltx/0/0000000000000002-0000000000000002.ltx.litestream-tmp",
    "ltx/4/0000000000000001-0000000000000001.ltx",
    "ltx/0/2-2.ltx",
    "notes",
];

const HEAD: &[u8] = b"level min_txid max_txid size created\n";

const TWO: &[u8] = b"level min_txid max_txid size created\n\
0 0000000000000002 0000000000000002 640 2023-11-14T22:13:21.000Z\n\
9 0000000000000001 0000000000000001 1158 2023-11-14T22:13:20.000Z\n";

/// A file that begins with the header of this transaction, and has so many bytes.
fn file(alloc: Global, txid: u64, moment: u64, size: usize) -> Result<Vec<u8>, AllocError> {
    let mut bytes = Vec::from_slice(alloc, b"LTX1\0\0\0\x02\0\0\x02\0\0\0\0\x02")?;
    bytes.extend_from_slice(&txid.to_be_bytes())?;
    bytes.extend_from_slice(&txid.to_be_bytes())?;
    bytes.extend_from_slice(&moment.to_be_bytes())?;
    bytes.extend_from_slice(&[0; 40])?;
    bytes.extend_from_slice(b"\x80\0\0\0\0\0\0\0\0\0\0\0\0\0\0\0\0\0\0\0")?;
    bytes.resize(size, 0)?;
    Ok(bytes)
}

/// The replica of two transactions, with foreign names beside.
fn two(alloc: Global) -> Result<MemDisk, Fail> {
    let mut store = MemDisk::new(alloc);
    store.put_file(WHOLE, &file(alloc, 1, 1_700_000_000_000, 1158)?)?;
    store.put_file(PIECE, &file(alloc, 2, 1_700_000_001_000, 640)?)?;
    for name in FOREIGN {
        store.put_file(name, b"LTX1")?;
    }
    Ok(store)
}

#[test]
fn files_are_listed_in_their_order(rt: HostRuntime) -> Result<(), Fail> {
    let mut store = two(rt.alloc())?;
    let mut out = MemOut::new(rt.alloc());
    assert!(rt; list_replica(rt.alloc(), "R", &mut store, &mut out) == Why::Done);
    assert!(rt; out.bytes() == TWO);
    let mut store = MemDisk::new(rt.alloc());
    let mut out = MemOut::new(rt.alloc());
    assert!(rt; list_replica(rt.alloc(), "R", &mut store, &mut out) == Why::Done);
    assert!(rt; out.bytes() == HEAD);
    Ok(())
}

/// How the listing of two files ends where one call of the disk fails.
fn ended(alloc: Global, call: u64) -> Result<Why, Fail> {
    let mut store = two(alloc)?;
    store.fail_at(call)?;
    let mut out = MemOut::new(alloc);
    Ok(list_replica(alloc, "R", &mut store, &mut out))
}

fn check_damage(rt: &impl Abort, alloc: Global) -> Result<(), Fail> {
    let mut store = two(alloc)?;
    store.put_file(PIECE, &file(alloc, 2, 0, 99)?)?;
    let mut out = MemOut::new(alloc);
    let why = list_replica(alloc, "R", &mut store, &mut out);
    let name = read_name(PIECE).ok_or("a name")?;
    assert!(rt; why == Why::Damaged(name, Damage::File(LtxFault::Short)));
    assert!(rt; out.bytes().is_empty());
    Ok(())
}

/// How many calls of the disk the listing of two files makes: attach, the names, two headers and two sizes.
const CALLS: u64 = 6;

#[test]
fn each_fault_is_told(rt: HostRuntime) -> Result<(), Fail> {
    check_damage(&rt, rt.alloc())?;
    for before in 0..CALLS {
        assert!(rt; ended(rt.alloc(), before + 1)? == Why::StoreFault);
    }
    assert!(rt; ended(rt.alloc(), CALLS + 1)? == Why::Done);
    let mut store = two(rt.alloc())?;
    let mut out = MemOut::new(rt.alloc());
    out.fail_at(1)?;
    assert!(rt; list_replica(rt.alloc(), "R", &mut store, &mut out) == Why::SinkFault);
    assert!(rt; out.bytes().is_empty());
    Ok(())
}
