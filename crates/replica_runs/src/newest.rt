//! The line that a run follows.

ghost use Rattle.std.specs.Prelude.{◌≡◌, ◌↔◌, IfOk, IfErr, IfSome, IsTrue};
ghost use Rattle.std.specs.Option.{IfNone};
ghost use Rattle.crash_disk.specs.Files.{files_after};
ghost use Rattle.crash_disk.specs.Told.{IfTold};
ghost use Rattle.replica_store.specs.Chain.{IsListOrdered};
ghost use Rattle.replica_store.specs.StoreError.{StoreHasCause};
ghost use Rattle.replica_runs.specs.Newest as spec;
ghost use Rattle.replica_runs.specs.Newest.{IsBehindHeader, IsNewestOf, LacksNewestOf, IsNewestLine, ExplainsNewest};
ghost use Rattle.replica_runs.specs.Newest.{HasPlaceBehind};

use crash_disk::Disk;
use ls_base::{Line, Place, Txid};
use replica_store::{FileName, StoreError, header_of, list};
use restore_plan::retained;
use std::alloc::Global;

/// The length of a log's header in bytes.
const LOG_HEADER_BYTES: u64 = 32;

/// The greatest transaction with which one of the names ends, 0 where there is none.
fn newest_of(names: &[FileName]) -> u64
    ensures { result ≡ spec.newest_of names.now }
{
    let mut newest = 0;
    for name in names {
        newest = name.max.number().max(newest);
    }
    newest
}

/// The first of the names that ends with the transaction.
fn first_ending(names: &[FileName], t: Txid) -> Option<FileName>
    ensures { result ≡ spec.first_ending names.now t }
{
    for name in names {
        if name.max == t {
            return Some(*name);
        }
    }
    None
}

/// Whether a log can have a commit at the place, or it is at rest.
fn is_behind_header(place: &Place) -> bool
    ensures { IsTrue result ↔ IsBehindHeader place.now }
{
    match place {
        Place::Wal { end, .. } => *end >= LOG_HEADER_BYTES,
        Place::Rest { .. } => true,
    }
}

/// The first of the names that ends with the newest transaction. `None` exactly where no chain of them leads there, or
/// there is no name.
#[tactic(auto, using(crate::proofs::NewestLemmas::newest_is_found))]
fn newest_file(names: &[FileName]) -> Option<FileName>
    requires in_order { IsListOrdered names.now }
    ensures some { IfSome result (IsNewestOf names.now) }
    ensures none { IfNone result (LacksNewestOf names.now) }
{
    let newest = Txid::new(newest_of(names))?;
    if !retained(names, newest) {
        return None;
    }
    first_ending(names, newest)
}

/// The line of the newest transaction, as the header of the first file in list order tells it that ends with it. `None`
/// where there is no file or no chain of files leads to that transaction; then no header is read. `Damaged` for that
/// file, `Store` for a fault of the disk, and `Memory` for want of memory.
pub fn newest_line<S: Disk>(alloc: Global, store: &mut S) -> Result<Option<Line>, StoreError>
    ensures value { IfOk result (λ line. IfTold (S.told store.old)
        (λ events. IsNewestLine (files_after events) line)) }
    ensures behind { IfOk result HasPlaceBehind }
    ensures explained { IfErr result (ExplainsNewest (S.told store.old)) }
    ensures unchanged { S.told store.new ≡ S.told store.old }
    ensures same_folder { S.folder store.new ≡ S.folder store.old }
    ensures cause { StoreHasCause (S.fault_count store.old) (S.fault_count store.new) result }
{
    let names = list(alloc, store)?;
    let Some(name) = newest_file(names.as_slice()) else {
        return Ok(None);
    };
    let header = header_of(store, &name)?;
    // No file of a replica has such a place.
    if !is_behind_header(&header.place) {
        return Ok(None);
    }
    Ok(Some(Line {
        place: header.place,
        moment: header.moment,
    }))
}
