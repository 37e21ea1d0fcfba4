//! Putting a file in two pieces.

ghost use Rattle.std.specs.Prelude.{IfOk};
ghost use Rattle.store_tests.specs.BeingPut.{IsBeingPut};

use crash_disk::{DiskFault, MemDisk};
use replica_store::{FileName, Put};

/// The pieces of the file, and the whole of it.
const FIRST: &[u8; 6] = b"first ";

const SECOND: &[u8; 6] = b"second";

pub const WHOLE: &str = "first second";

/// How many calls on the disk a put in two pieces makes.
pub const CALLS: u64 = 7;

/// Begins the file.
pub fn begun(store: &mut MemDisk, name: &FileName) -> Result<Put, DiskFault>
    ensures putting { IfOk result (λ put. IsBeingPut put store.new.events) }
{
    Put::begin(store, name)
}

/// Puts one piece more, and abandons the file at a fault.
pub fn put_more(mut put: Put, store: &mut MemDisk, piece: &[u8]) -> Result<Put, DiskFault>
    requires putting { IsBeingPut put store.old.events }
    ensures putting { IfOk result (λ put. IsBeingPut put store.new.events) }
{
    match put.append(store, piece) {
        Ok(()) => Ok(put),
        Err(fault) => {
            put.abandon(store)?;
            Err(fault)
        }
    }
}

/// Ends the file.
fn finished(put: Put, store: &mut MemDisk) -> Result<(), DiskFault>
    requires putting { IsBeingPut put store.old.events }
{
    put.finish(store)
}

/// Puts a file in two pieces.
pub fn put_pieces(
    store: &mut MemDisk,
    name: &FileName,
    first: &[u8],
    second: &[u8],
) -> Result<(), DiskFault> {
    let put = begun(store, name)?;
    let put = put_more(put, store, first)?;
    let put = put_more(put, store, second)?;
    finished(put, store)
}

/// Puts the file in two pieces.
pub fn put_in_two(store: &mut MemDisk, name: &FileName) -> Result<(), DiskFault> {
    put_pieces(store, name, FIRST, SECOND)
}

/// Puts the first piece of the file and abandons it.
pub fn put_and_abandon(store: &mut MemDisk, name: &FileName) -> Result<(), DiskFault> {
    let put = begun(store, name)?;
    let put = put_more(put, store, FIRST)?;
    put.abandon(store)
}
