//! The headers of a replica's files.

ghost use Rattle.std.specs.Prelude.{◌≡◌, ◌*◌, length, IfOk, IfErr};
ghost use Rattle.replica_store.specs.Chain.{names_of};
ghost use Rattle.replica_store.specs.Dating.{TellsHeader, TellsDated, ExplainsHeader, ExplainsDated};
ghost use Rattle.replica_store.specs.Given.{GaveAtMost};
ghost use Rattle.replica_store.specs.StoreError.{StoreHasCause};

use crate::dated_names::{Dated, DatedNames};
use crate::error::{Damage, StoreError};
use crate::file_name::FileName;
use crate::name_text::write_name;
use crash_disk::Disk;
use ltx_format::{LtxHeader, read_ltx_header};
use std::alloc::Global;

/// The header of the file of this name, from its first 100 bytes; an absent file has no bytes. `Damaged` with the
/// header's first fault, or with `NameDiffers` exactly where its transactions aren't those of the name; `Store`
/// for a fault of the disk. Takes no memory, and never answers `Memory`.
pub fn header_of<S: Disk>(store: &mut S, name: &FileName) -> Result<LtxHeader, StoreError>
    ensures value { IfOk result (TellsHeader (S.told store.old) name.now) }
    ensures explained { IfErr result (ExplainsHeader (S.told store.old) name.now) }
    ensures unchanged { S.told store.new ≡ S.told store.old }
    ensures same_folder { S.folder store.new ≡ S.folder store.old }
    ensures gave { GaveAtMost 100 (S.given store.old) (S.given store.new) }
    ensures cause { StoreHasCause (S.fault_count store.old) (S.fault_count store.new) result }
{
    let mut front = [0u8; 100];
    let count = store.read_at(write_name(name).as_str(), 0, &mut front)?;
    let header = match read_ltx_header(&front[..count]) {
        Ok(header) => header,
        Err(fault) => return Err(StoreError::Damaged(*name, Damage::File(fault))),
    };
    if header.min != name.min || header.max != name.max {
        return Err(StoreError::Damaged(*name, Damage::NameDiffers));
    }
    Ok(header)
}

/// The names with the moments that the headers of their files tell. Reads the headers in the order of the
/// names and answers the first fault as `header_of` does, or `Memory` for want of it.
pub fn dated<S: Disk>(
    alloc: Global,
    store: &mut S,
    names: &[FileName],
) -> Result<DatedNames, StoreError>
    ensures value { IfOk result (TellsDated (S.told store.old) names.now) }
    ensures names { IfOk result (λ dated. names_of dated ≡ names.now) }
    ensures explained { IfErr result (ExplainsDated (S.told store.old) names.now) }
    ensures unchanged { S.told store.new ≡ S.told store.old }
    ensures same_folder { S.folder store.new ≡ S.folder store.old }
    ensures gave { GaveAtMost (length names.now * 100) (S.given store.old) (S.given store.new) }
    ensures cause { StoreHasCause (S.fault_count store.old) (S.fault_count store.new) result }
{
    let mut list = DatedNames::new(alloc);
    for name in names {
        let header = header_of(store, name)?;
        list.push(Dated {
            name: *name,
            moment: header.moment,
        })?;
    }
    Ok(list)
}
