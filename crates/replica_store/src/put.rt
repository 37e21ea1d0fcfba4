//! Putting a file into the replica, so that no crash leaves a part of it.

ghost use Rattle.std.specs.Prelude.{◌≡◌, [], ◌++◌, IfOk, OnOk, OnErr};
ghost use Rattle.ls_base.specs.Fault.{HasCause};
ghost use Rattle.crash_disk.specs.Told.{IfTold, Keeps};
ghost use Rattle.crash_disk.specs.Files.{IsThere};
ghost use Rattle.crash_disk.specs.GoesOn.{GoesOn};
ghost use Rattle.replica_store.specs.Listing.{path_of};
ghost use Rattle.replica_store.specs.Putting.{draft_path, IsAbsent, KeepsOthers, IsPutting, AfterPutting};
ghost use Rattle.replica_store.specs.Putting.{PutsMore, PutsNothing, StillKeepsOthers, MayPut, HasPut};

use crate::draft::DraftText;
use crate::file_name::FileName;
use crate::name_text::{NameText, write_name};
use crash_disk::{Disk, DiskFault};
use std::marker::Model;

/// A file that is being written. It has its name only once it is whole and on the disk: until then its
/// bytes stand under the name with `.tmp` behind it. A contract sees the path of its name.
#[derive(Debug)]
pub struct Put {
    name: NameText,
    draft: DraftText,
}

impl Model for Put {
    ghost use Rattle.std.specs.Prelude.{◌≡◌, ℕ, List};
    ghost use Rattle.replica_store.specs.Putting.{draft_path};

    ghost Value = { List ℕ };

    ghost view = { λ put. put.name };

    ghost invariant = { λ put. put.draft ≡ draft_path put.name };
}

impl Put {
    /// Begins the file of this name, without a byte. A temporary file that a stop left is removed first, and not
    /// emptied: it may be a file that a crash still shows under another name. After a fault nothing but the
    /// temporary file has changed. Takes no memory.
    pub fn begin<S: Disk>(store: &mut S, name: &FileName) -> Result<Put, DiskFault>
        ensures named { IfOk result (λ put. put ≡ path_of name.now) }
        ensures ok { IfOk result (λ put. GoesOn (S.told store.old) (S.told store.new) (IsPutting put [])) }
        ensures err { OnErr result (GoesOn (S.told store.old) (S.told store.new) (KeepsOthers (path_of name.now))) }
        ensures keeps { Keeps (S.folder store.old) (S.folder store.new) (S.given store.old) (S.given store.new) }
        ensures cause { HasCause (S.fault_count store.old) (S.fault_count store.new) result }
    {
        let draft = DraftText::of(name);
        store.remove(draft.as_str())?;
        store.create(draft.as_str())?;
        Ok(Put {
            name: write_name(name),
            draft,
        })
    }

    /// Puts the bytes behind those of the file. After a fault a front of them may stand there, and the file is
    /// to be abandoned. Takes no memory.
    pub fn append<S: Disk>(&mut self, store: &mut S, bytes: &[u8]) -> Result<(), DiskFault>
        requires there { IfTold (S.told store.old) (λ events. IsThere events (draft_path self.old)) }
        ensures same_name { self.new ≡ self.old }
        ensures ok { OnOk result (PutsMore self.old bytes.now (S.told store.old) (S.told store.new)) }
        ensures err { OnErr result (PutsNothing self.old (S.told store.old) (S.told store.new)) }
        ensures keeps { Keeps (S.folder store.old) (S.folder store.new) (S.given store.old) (S.given store.new) }
        ensures cause { HasCause (S.fault_count store.old) (S.fault_count store.new) result }
    {
        store.append(self.draft.as_str(), bytes)
    }

    /// Brings the file to the disk, gives it its name and brings the names to the disk. After a fault the
    /// file is there whole or as it was. Takes no memory.
    pub fn finish<S: Disk>(self, store: &mut S) -> Result<(), DiskFault>
        requires there { IfTold (S.told store.old) (λ events. IsThere events (draft_path self)) }
        ensures ok { OnOk result (AfterPutting self (S.told store.old) (S.told store.new) (HasPut self)) }
        ensures err { OnErr result (AfterPutting self (S.told store.old) (S.told store.new) (MayPut self)) }
        ensures keeps { Keeps (S.folder store.old) (S.folder store.new) (S.given store.old) (S.given store.new) }
        ensures cause { HasCause (S.fault_count store.old) (S.fault_count store.new) result }
    {
        let Put { name, draft } = self;
        store.sync(draft.as_str())?;
        store.rename(draft.as_str(), name.as_str())?;
        store.sync_names()
    }

    /// Removes what was written of the file. Whatever the answer, nothing but the temporary file has changed. Takes
    /// no memory.
    pub fn abandon<S: Disk>(self, store: &mut S) -> Result<(), DiskFault>
        ensures ok { OnOk result (IfTold (S.told store.new) (λ events. IsAbsent events (draft_path self))) }
        ensures kept { StillKeepsOthers self (S.told store.old) (S.told store.new) }
        ensures keeps { Keeps (S.folder store.old) (S.folder store.new) (S.given store.old) (S.given store.new) }
        ensures cause { HasCause (S.fault_count store.old) (S.fault_count store.new) result }
    {
        let Put { name: _, draft } = self;
        store.remove(draft.as_str())
    }
}
