//! The upkeep of the replica behind a sync.

ghost use Rattle.std.specs.Prelude.{◌≡◌, ◌-◌, IfOk, IfErr, OnOk};
ghost use Rattle.crash_disk.specs.GoesOn as disk;
ghost use Rattle.crash_disk.specs.Told as disk_told;
ghost use Rattle.replica_store.specs.Chain.{IsListOrdered, names_of};
ghost use Rattle.round_line.specs.RoundText.{name_in};
ghost use Rattle.replica_sync.specs.Newest as newest;
ghost use Rattle.replica_upkeep.specs.Answers.{HasCause, IsSound};
ghost use Rattle.replica_upkeep.specs.Faith.{KeepsFaith, Settles};
ghost use Rattle.replica_upkeep.specs.Kept.{KeepsFiles};
ghost use Rattle.replica_round.specs.Keeping.{AreFilesWith, ExplainsUpkeep, HasKeptUp};
ghost use Rattle.replica_round.specs.StoreSide.{JoinsStored};

use crate::changing::Changed;
use crash_disk::Disk;
use ls_base::Memory;
use replica_store::{Dated, DatedNames};
use replica_sync::next_moment;
use replica_upkeep::{Upkeep, UpkeepStop, add_name, maintain};
use round_line::Synced;
use std::alloc::Global;

/// The list with the name of what was stored, if anything was, in list order. `now` is in milliseconds.
fn with_stored(files: DatedNames, sync: &Synced, now: u64) -> Result<DatedNames, Memory>
    requires in_order { IsListOrdered (names_of files) }
    ensures joins { IfOk result (JoinsStored (name_in sync.now) (newest.next_moment files now) files) }
    ensures in_order { IfOk result (λ longer. IsListOrdered (names_of longer)) }
{
    let mut dated = files.into_vec();
    if let Some(name) = sync.name() {
        let moment = next_moment(&dated, now);
        add_name(
            &mut dated,
            Dated {
                name: *name,
                moment,
            },
        )?;
    }
    Ok(DatedNames::from_vec(dated))
}

/// Merges what is due and drops what is older than `keep`, in milliseconds, behind what was stored. No list of the
/// replica is made for it.
pub(crate) fn keep_up<S: Disk>(
    alloc: Global,
    store: &mut S,
    changed: Changed,
    keep: u64,
    now: u64,
) -> Result<Upkeep, UpkeepStop>
    requires in_order { IsListOrdered (names_of changed.files) }
    requires files { disk_told.IfTold (S.told store.old) (AreFilesWith changed now) }
    ensures ok { IfOk result (λ upkeep. disk.GoesOn (S.told store.old) (S.told store.new) (HasKeptUp changed keep now
        upkeep)) }
    ensures explained { IfErr result (λ stop. disk.GoesOn (S.told store.old) (S.told store.new) (ExplainsUpkeep
        changed now stop)) }
    ensures files { disk.GoesOn (S.told store.old) (S.told store.new) (KeepsFiles (now - keep)) }
    ensures faith { disk.GoesOn (S.told store.old) (S.told store.new) (KeepsFaith (now - keep)) }
    ensures settles { OnOk result (disk.GoesOn (S.told store.old) (S.told store.new) Settles) }
    ensures sound { IfErr result (λ stop. disk_told.IfTold (S.told store.old) (IsSound stop)) }
    ensures same_folder { S.folder store.new ≡ S.folder store.old }
    ensures cause { HasCause (S.fault_count store.old) (S.fault_count store.new) result }
{
    let dated = with_stored(changed.files, &changed.sync, now)?;
    maintain(alloc, store, dated, keep, now)
}
