//! Steps of a replica, and what every image since then holds.

ghost use Rattle.std.specs.Prelude.{OnOk, OnErr};
ghost use Rattle.replica_store.specs.Listing.{path_of};
ghost use Rattle.replica_store.specs.Putting.{MayPut, HasPut};
ghost use Rattle.store_tests.specs.Steps.{Went, PutsBoth, MayPutBoth, DropsBoth, MayDropBoth};

use crash_disk::{DiskFault, MemDisk};
use replica_store::{FileName, Put, drop_file, settle};

/// Puts a file in one piece.
fn put_whole(store: &mut MemDisk, name: &FileName, bytes: &[u8]) -> Result<(), DiskFault>
    ensures ok { OnOk result (Went store.old.events store.new.events (HasPut (path_of name.now) bytes.now)) }
    ensures err { OnErr result (Went store.old.events store.new.events (MayPut (path_of name.now) bytes.now)) }
{
    let mut put = Put::begin(store, name)?;
    if let Err(fault) = put.append(store, bytes) {
        put.abandon(store)?;
        return Err(fault);
    }
    put.finish(store)
}

/// Puts a file, and another behind it.
pub fn put_both(
    store: &mut MemDisk,
    first: &FileName,
    bytes: &[u8],
    second: &FileName,
    more: &[u8],
) -> Result<(), DiskFault>
    ensures ok { OnOk result (PutsBoth first.now bytes.now second.now more.now store.old.events store.new.events) }
    ensures err { OnErr result (MayPutBoth first.now bytes.now second.now more.now store.old.events store.new.events) }
{
    put_whole(store, first, bytes)?;
    put_whole(store, second, more)
}

/// Drops two files, and brings the names to the disk.
pub fn drop_both(store: &mut MemDisk, first: &FileName, second: &FileName) -> Result<(), DiskFault>
    ensures ok { OnOk result (DropsBoth first.now second.now store.old.events store.new.events) }
    ensures err { OnErr result (MayDropBoth first.now second.now store.old.events store.new.events) }
{
    drop_file(store, first)?;
    drop_file(store, second)?;
    settle(store)
}
