//! The list of a replica's files.

ghost use Rattle.std.specs.Prelude.{◌≡◌, IfOk, IfErr};
ghost use Rattle.crash_disk.specs.Files.{files_after};
ghost use Rattle.crash_disk.specs.Told.{IfTold, Keeps};
ghost use Rattle.replica_store.specs.Chain.{IsListOrdered};
ghost use Rattle.replica_store.specs.Listing.{AreListed, AreReadOf};
ghost use Rattle.replica_store.specs.StoreError.{StoreHasCause, BlamesNoFile};

use crate::error::StoreError;
use crate::file_name::FileName;
use crate::file_names::FileNames;
use crate::reading::read_name;
use crash_disk::{Disk, NameList};
use ls_base::Memory;
use std::alloc::Global;

fn read_names(alloc: Global, texts: &NameList) -> Result<Vec<FileName>, Memory>
    ensures { IfOk result (λ names. AreReadOf texts.now names.items) }
{
    let mut names = Vec::new(alloc);
    for at in 0..texts.len() {
        let Some(text) = texts.get(at) else {
            unreachable!()
        };
        if let Some(name) = read_name(text) {
            names.push(name)?;
        }
    }
    Ok(names)
}

/// The names of the replica's files in list order: by level, then by the first transaction, then by the
/// last. All other names of the store, temporary ones too, are passed over. `Store` for a fault of the disk and
/// `Memory` for want of memory; nothing else.
pub fn list<S: Disk>(alloc: Global, store: &mut S) -> Result<FileNames, StoreError>
    ensures value { IfOk result (λ names. IfTold (S.told store.old) (λ events. AreListed (files_after events) names)) }
    ensures ordered { IfOk result (λ names. IsListOrdered names) }
    ensures blames_no_file { IfErr result BlamesNoFile }
    ensures unchanged { S.told store.new ≡ S.told store.old }
    ensures keeps { Keeps (S.folder store.old) (S.folder store.new) (S.given store.old) (S.given store.new) }
    ensures cause { StoreHasCause (S.fault_count store.old) (S.fault_count store.new) result }
{
    let texts = store.names(alloc)?;
    let mut names = read_names(alloc, &texts)?;
    names.sort_unstable();
    Ok(FileNames::from_vec(names))
}
