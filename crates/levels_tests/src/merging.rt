//! Merging the run that is due.

ghost use Rattle.std.specs.Prelude.{◌≡◌};
ghost use Rattle.replica_store.specs.Chain.{IsListOrdered, names_of};

use crate::content::disk_with_pieces;
use compact_levels::{MergeFault, due, merge};
use crash_disk::MemDisk;
use replica_store::{Dated, FileName, dated, list};
use std::alloc::Global;
use std::test::Fail;

/// How many calls on the disk a merge of both pieces makes. Six read each: its header, the front of its block, the
/// page, the front of its end, the end, and what stands behind that. Then the temporary file is removed, created, given
/// what was gathered and its end, synced and renamed, and the names are synced.
pub const CALLS: u64 = 19;

/// 2023-11-14T22:13:40Z, ten seconds past a half minute.
const NOW: u64 = 1_700_000_020_000;

/// Merges the run that is due at level 1 by these names.
fn merge_run(
    alloc: Global,
    store: &mut MemDisk,
    names: &[FileName],
    dated: &[Dated],
) -> Option<Result<FileName, MergeFault>>
    requires in_order { IsListOrdered names.now }
    requires same { names_of dated.now ≡ names.now }
{
    let run = due(dated, 1, NOW)?;
    Some(merge(alloc, store, names, &run))
}

/// Merges both pieces on the disk. No call of it tells their names and moments, which are those of another disk.
pub fn merge_pieces(
    alloc: Global,
    store: &mut MemDisk,
) -> Result<Result<FileName, MergeFault>, Fail> {
    let mut other = disk_with_pieces(alloc)?;
    let names = list(alloc, &mut other)?;
    let moments = dated(alloc, &mut other, names.as_slice())?;
    let merged = merge_run(alloc, store, names.as_slice(), moments.as_slice()).ok_or("a run")?;
    Ok(merged)
}
