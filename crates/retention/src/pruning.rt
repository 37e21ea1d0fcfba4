//! The removal of dropped names from a replica.

ghost use Rattle.std.specs.Prelude.{OnOk};
ghost use Rattle.crash_disk.specs.GoesOn.{GoesOn};
ghost use Rattle.crash_disk.specs.Told.{Keeps};
ghost use Rattle.ls_base.specs.Fault.{HasCause};
ghost use Rattle.replica_store.specs.Dropping.{MayDropAll};
ghost use Rattle.replica_store.specs.Listing.{paths_of};
ghost use Rattle.retention.specs.Pruning.{HasPruned, IsDroppedInOrder, KeepsProtectedSince};

use crate::outcome::Drops;
use crash_disk::{Disk, DiskFault};
use replica_store::{FileName, drop_file, settle};

/// Removes the names in their order, and then brings the names to the disk, if there were any to remove.
fn drop_files<S: Disk>(store: &mut S, names: &[FileName]) -> Result<(), DiskFault>
    ensures ok { OnOk result (GoesOn (S.told store.old) (S.told store.new) (HasPruned names.now)) }
    ensures order { GoesOn (S.told store.old) (S.told store.new) (IsDroppedInOrder names.now) }
    ensures keeps { Keeps (S.folder store.old) (S.folder store.new) (S.given store.old) (S.given store.new) }
    ensures cause { HasCause (S.fault_count store.old) (S.fault_count store.new) result }
{
    for i in 0..names.len() {
        drop_file(store, &names[i])?;
    }
    if names.is_empty() {
        return Ok(());
    }
    settle(store)
}

/// Removes the dropped names in list order, and then brings the names to the disk, if any was dropped. After a fault
/// the first ones of them are gone. Whatever a crash leaves at any moment of this call, or after it, each protected
/// transaction is retained in it, where a crash before would have left the whole list. Takes no memory.
#[tactic(auto, using(crate::proofs::OrderLemmas::told_among))]
pub fn prune<S: Disk>(store: &mut S, drops: &Drops) -> Result<(), DiskFault>
    ensures ok { OnOk result (GoesOn (S.told store.old) (S.told store.new) (HasPruned drops.now.names)) }
    ensures order { GoesOn (S.told store.old) (S.told store.new) (IsDroppedInOrder drops.now.names) }
    ensures files { GoesOn (S.told store.old) (S.told store.new) (MayDropAll (paths_of drops.now.names)) }
    ensures crash { GoesOn (S.told store.old) (S.told store.new) (KeepsProtectedSince drops.now.dated drops.now.cut) }
    ensures keeps { Keeps (S.folder store.old) (S.folder store.new) (S.given store.old) (S.given store.new) }
    ensures cause { HasCause (S.fault_count store.old) (S.fault_count store.new) result }
{
    let names = drops.names();
    drop_files(store, names)
}
