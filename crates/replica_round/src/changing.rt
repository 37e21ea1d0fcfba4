//! Storing what changed.

ghost use Rattle.std.specs.Prelude.{◌≡◌, None, false, IfOk, IfErr, OnOk};
ghost use Rattle.ls_base.specs.Fault.{HasCause};
ghost use Rattle.crash_disk.specs.Files.{files_after};
ghost use Rattle.crash_disk.specs.GoesOn as disk;
ghost use Rattle.crash_disk.specs.Told as disk_told;
ghost use Rattle.live_gate.specs.LiveRecord.{IfTold, GoesOn};
ghost use Rattle.live_gate.specs.LiveCalls.{Keeps};
ghost use Rattle.live_gate.specs.Legal.{IsLegal};
ghost use Rattle.replica_store.specs.Chain.{IsListOrdered, names_of};
ghost use Rattle.replica_store.specs.StoreError.{StoreHasCause};
ghost use Rattle.wal_follow.specs.Calls.{KnowsPlace};
ghost use Rattle.wal_follow.specs.Following.{Fits};
ghost use Rattle.wal_follow.specs.LogEnd.{log_end_of};
ghost use Rattle.replica_sync.specs.Faith.{IfBothTell};
ghost use Rattle.replica_sync.specs.LiveSide.{MayAdvanceTo};
ghost use Rattle.replica_upkeep.specs.Kept.{AreFiles};
ghost use Rattle.replica_round.specs.Causes.{HasCauses};
ghost use Rattle.replica_round.specs.ChangesFaith.{ChangesKeepFaith};
ghost use Rattle.replica_round.specs.ChangesLive.{ChangesLive};
ghost use Rattle.replica_round.specs.ChangesStore.{ChangesStore};
ghost use Rattle.replica_round.specs.Keeping.{AreFilesWith};
ghost use Rattle.replica_round.specs.Passing.{HasPages};
ghost use Rattle.replica_round.specs.Steps.{ExplainsFiles, HoldsAt};

use crate::stop::RoundStop;
use crash_disk::Disk;
use live_gate::{Live, LiveFault};
use replica_store::{DatedNames, StoreError, dated, list};
use replica_sync::sync;
use round_line::Synced;
use std::alloc::Global;
use wal_follow::Follower;

/// What was stored over a list of a replica's files.
#[derive(Debug, Drop)]
pub(crate) struct Changed {
    /// The files before it, in list order, with their moments.
    pub(crate) files: DatedNames,
    /// What the sync stored.
    pub(crate) sync: Synced,
}

/// Stores what changed in the live database since the follower's place, and moves the gate's hold on to the place that
/// is then the newest one. `now` is in milliseconds since 1970-01-01T00:00:00Z.
///
/// The refusals come in the order of the steps: those of the list of the files and of their headers, `Damaged` for the
/// first bad one in list order; then those of `sync`; then a fault of the live database as the hold moves, which stays
/// then.
pub(crate) fn store_changes<L: Live, S: Disk>(
    alloc: Global,
    live: &mut L,
    store: &mut S,
    follower: &mut Follower,
    now: u64,
) -> Result<Changed, RoundStop>
    requires legal { IfTold (L.told live.old) (λ r. IsLegal r.database) }
    requires fits { IfTold (L.told live.old) (λ r. Fits follower.old r.database) }
    ensures live { GoesOn (L.told live.old) (L.told live.new) (ChangesLive follower.old follower.new result) }
    ensures store { disk.GoesOn (S.told store.old) (S.told store.new) (ChangesStore now result) }
    ensures faith { IfBothTell (L.told live.old) (L.told live.new) (S.told store.old) (S.told store.new)
        (ChangesKeepFaith follower.old follower.new now result) }
    ensures in_order { IfOk result (λ changed. IsListOrdered (names_of changed.files)) }
    ensures files { IfOk result (λ changed. disk_told.IfTold (S.told store.new) (AreFilesWith changed now)) }
    ensures pages { OnOk result (HasPages follower.new) }
    ensures known { OnOk result (KnowsPlace follower.new) }
    ensures none { OnOk result (follower.new.found ≡ None) }
    ensures keeps { Keeps (L.attached live.old) (L.attached live.new) (L.is_there live.old) (L.is_there live.new) }
    ensures same_folder { S.folder store.new ≡ S.folder store.old }
    ensures causes { HasCauses (L.fault_count live.old) (L.fault_count live.new) (S.fault_count store.old)
        (S.fault_count store.new) result }
{
    let files = files_of(alloc, store)?;
    let sync = sync(alloc, live, store, follower, files.as_slice(), now)?;
    hold_place(live, follower)?;
    Ok(Changed { files, sync })
}

/// The replica's files in list order, with the moments that their headers tell.
fn files_of<S: Disk>(alloc: Global, store: &mut S) -> Result<DatedNames, StoreError>
    ensures value { IfOk result (λ dated. disk_told.IfTold (S.told store.old)
        (λ events. AreFiles (files_after events) dated)) }
    ensures in_order { IfOk result (λ dated. IsListOrdered (names_of dated)) }
    ensures explained { IfErr result (ExplainsFiles (S.told store.old)) }
    ensures unchanged { S.told store.new ≡ S.told store.old }
    ensures same_folder { S.folder store.new ≡ S.folder store.old }
    ensures cause { StoreHasCause (S.fault_count store.old) (S.fault_count store.new) result }
{
    let names = list(alloc, store)?;
    dated(alloc, store, names.as_slice())
}

/// Moves the hold to the end of the follower's place, where that is in the log.
fn hold_place<L: Live>(live: &mut L, follower: &Follower) -> Result<(), LiveFault>
    requires mark { follower.now.passed ≡ false
        → IfTold (L.told live.old) (λ r. MayAdvanceTo follower.now.place r.database) }
    ensures told { GoesOn (L.told live.old) (L.told live.new)
        (HoldsAt (log_end_of follower.now follower.now.passed) result) }
    ensures keeps { Keeps (L.attached live.old) (L.attached live.new) (L.is_there live.old) (L.is_there live.new) }
    ensures cause { HasCause (L.fault_count live.old) (L.fault_count live.new) result }
{
    match follower.log_end() {
        Some(end) => live.advance(end),
        None => Ok(()),
    }
}
