//! What a listing tells, gathered before it is printed.

ghost use Rattle.std.specs.Prelude.{◌≡◌, ◌≤◌, map, length, Some, IfOk, IfErr, OnOk};
ghost use Rattle.replica_store.specs.Chain.{names_of};
ghost use Rattle.replica_store.specs.StoreError.{StoreHasCause, BlamesNoFile};
ghost use Rattle.ltx_command.specs.Files.{AreFilesOf, IfFilesTold, size_under};
ghost use Rattle.ltx_command.specs.Stop.{ExplainsStop};

use crate::stop::LtxStop;
use crash_disk::Disk;
use replica_store::{Dated, DatedNames, StoreError, dated, list, write_name};
use std::alloc::Global;

/// The files of a replica in list order.
#[derive(Drop)]
pub struct Gathered {
    /// Their names, and the moments that their headers tell.
    pub dated: DatedNames,
    /// Their sizes in bytes.
    pub sizes: Vec<u64>,
}

/// The sizes of the files of these names in bytes; an absent file has none.
fn sizes_of<S: Disk>(alloc: Global, store: &mut S, dated: &[Dated]) -> Result<Vec<u64>, StoreError>
    ensures value { IfOk result (λ sizes. IfFilesTold (S.told store.old)
        (λ files. sizes.items ≡ map (size_under files) (names_of dated.now))) }
    ensures each { IfOk result (λ sizes. length sizes.items ≡ length dated.now) }
    ensures blames_no_file { IfErr result BlamesNoFile }
    ensures unchanged { S.told store.new ≡ S.told store.old }
    ensures same_folder { S.folder store.new ≡ S.folder store.old }
    ensures cause { StoreHasCause (S.fault_count store.old) (S.fault_count store.new) result }
{
    let mut sizes = Vec::new(alloc);
    for one in dated {
        let size = store.size(write_name(&one.name).as_str())?;
        sizes.push(size.unwrap_or(0))?;
    }
    Ok(sizes)
}

/// The files of the replica in this folder, with their moments and sizes.
pub fn gather<S: Disk>(alloc: Global, replica: &str, store: &mut S) -> Result<Gathered, LtxStop>
    ensures found { IfOk result (λ found. IfFilesTold (S.content store.old replica.now)
        (λ files. AreFilesOf files found.dated found.sizes.items)) }
    ensures each { IfOk result (λ found. length found.sizes.items ≡ length found.dated) }
    ensures explained { IfErr result (ExplainsStop (S.content store.old replica.now) (S.fault_count store.old)
        (S.fault_count store.new)) }
    ensures attached { OnOk result (S.folder store.new ≡ Some replica.now) }
    ensures unchanged { S.content store.new replica.now ≡ S.content store.old replica.now }
    ensures later { S.fault_count store.old ≤ S.fault_count store.new }
{
    store.attach(alloc, replica)?;
    let names = list(alloc, store)?;
    let dated = dated(alloc, store, names.as_slice())?;
    let sizes = sizes_of(alloc, store, dated.as_slice())?;
    Ok(Gathered { dated, sizes })
}
