//! Reading a file of the replica whole.

ghost use Rattle.std.specs.Prelude.{◌≡◌, length, IfOk, IfErr, OnErr};
ghost use Rattle.crash_disk.specs.Told.{gives};
ghost use Rattle.replica_store.specs.Listing.{TellsBytes};
ghost use Rattle.replica_store.specs.StoreError.{StoreHasCause, BlamesNoFile};

use crate::error::StoreError;
use crate::file_name::FileName;
use crate::name_text::write_name;
use crash_disk::Disk;
use ls_base::Bytes;
use std::alloc::Global;

/// The bytes of the file of this name, in one reading; none where the file is absent. `Store` for a fault of the disk
/// and `Memory` for want of memory; nothing else.
pub fn get<S: Disk>(alloc: Global, store: &mut S, name: &FileName) -> Result<Bytes, StoreError>
    ensures value { IfOk result (TellsBytes (S.told store.old) name.now) }
    ensures blames_no_file { IfErr result BlamesNoFile }
    ensures unchanged { S.told store.new ≡ S.told store.old }
    ensures same_folder { S.folder store.new ≡ S.folder store.old }
    ensures gave { IfOk result (λ bytes. S.given store.new ≡ gives (S.given store.old) (length bytes)) }
    ensures gave_none { OnErr result (S.given store.new ≡ S.given store.old) }
    ensures cause { StoreHasCause (S.fault_count store.old) (S.fault_count store.new) result }
{
    let text = write_name(name);
    let path = text.as_str();
    let size = store.size(path)?.unwrap_or(0);
    let mut bytes = vec![in alloc; 0u8; size as usize]?;
    let count = store.read_at(path, 0, bytes.as_mut_slice())?;
    bytes.truncate(count);
    Ok(Bytes::from_vec(bytes))
}
