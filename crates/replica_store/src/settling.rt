//! Making the names of a replica stay, and dropping one.

ghost use Rattle.std.specs.Prelude.{◌≡◌, OnOk, OnErr};
ghost use Rattle.ls_base.specs.Fault.{HasCause};
ghost use Rattle.crash_disk.specs.GoesOn.{GoesOn};
ghost use Rattle.crash_disk.specs.Told.{Keeps};
ghost use Rattle.replica_store.specs.Listing.{path_of};
ghost use Rattle.replica_store.specs.Putting.{HasSyncedNames, HasDropped, MayDrop};

use crate::file_name::FileName;
use crate::name_text::write_name;
use crash_disk::{Disk, DiskFault};

/// Brings the names to the disk: after Ok a crash leaves exactly the files that are there. Takes no memory.
pub fn settle<S: Disk>(store: &mut S) -> Result<(), DiskFault>
    ensures ok { OnOk result (GoesOn (S.told store.old) (S.told store.new) HasSyncedNames) }
    ensures err { OnErr result (S.told store.new ≡ S.told store.old) }
    ensures keeps { Keeps (S.folder store.old) (S.folder store.new) (S.given store.old) (S.given store.new) }
    ensures cause { HasCause (S.fault_count store.old) (S.fault_count store.new) result }
{
    store.sync_names()
}

/// Removes the file of this name. A crash may leave it until the names are brought to the disk. Takes no
/// memory.
pub fn drop_file<S: Disk>(store: &mut S, name: &FileName) -> Result<(), DiskFault>
    ensures ok { OnOk result (GoesOn (S.told store.old) (S.told store.new) (HasDropped (path_of name.now))) }
    ensures err { OnErr result (GoesOn (S.told store.old) (S.told store.new) (MayDrop (path_of name.now))) }
    ensures keeps { Keeps (S.folder store.old) (S.folder store.new) (S.given store.old) (S.given store.new) }
    ensures cause { HasCause (S.fault_count store.old) (S.fault_count store.new) result }
{
    store.remove(write_name(name).as_str())
}
