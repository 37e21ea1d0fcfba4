//! A round.

ghost use Rattle.std.specs.Prelude.{◌≡◌};
ghost use Rattle.crash_disk.specs.GoesOn as disk;
ghost use Rattle.live_gate.specs.LiveRecord.{IfTold, GoesOn, is_at_rest};
ghost use Rattle.live_gate.specs.LiveCalls.{Keeps};
ghost use Rattle.live_gate.specs.Legal.{IsLegal};
ghost use Rattle.wal_follow.specs.Following.{Fits};
ghost use Rattle.replica_sync.specs.Faith.{IfBothTell};
ghost use Rattle.replica_round.specs.Causes.{HasCauses};
ghost use Rattle.replica_round.specs.Faith.{RoundKeepsFaith};
ghost use Rattle.replica_round.specs.LiveSide.{Rounds};
ghost use Rattle.replica_round.specs.StoreSide.{StoresRound};

use crate::changing::store_changes;
use crate::keeping::keep_up;
use crate::passing::pass_when_long;
use crate::stop::RoundStop;
use crash_disk::Disk;
use live_gate::Live;
use round_line::Round;
use std::alloc::Global;
use wal_follow::Follower;

/// A whole round: stores what changed in the live database since the follower's place, moves the gate's hold on to the
/// place that is then the newest one, asks once for a pass where 1000 frames or more stand in the log up to there, and
/// then merges the replica's files and drops those older than `keep`, as far as no transaction is lost that is to stay.
/// `now` is in milliseconds since 1970-01-01T00:00:00Z, `keep` in milliseconds.
///
/// The refusals come in the order of the steps: those of the list of the files and of their headers, `Damaged` for the
/// first bad one in list order; then those of `sync`; a fault of the live database as the hold moves, which stays then;
/// those of the pass, which may then have taken place; and those of the upkeep, `Damaged` and `PageMissing` for a file
/// of a run that was due. No file that tells the truth is blamed. After Ok the follower fits again, and the replica is
/// ready for the next round. After a refusal each of its files has its bytes, or was older than the cut and is gone.
/// The list of the files is made once, and each header read once. Takes memory for that list, 100 bytes a file, beside
/// what `sync`, the pass and the upkeep take.
pub fn round<L: Live, S: Disk>(
    alloc: Global,
    live: &mut L,
    store: &mut S,
    follower: &mut Follower,
    keep: u64,
    now: u64,
) -> Result<Round, RoundStop>
    requires legal { IfTold (L.told live.old) (λ r. IsLegal r.database) }
    requires fits { IfTold (L.told live.old) (λ r. Fits follower.old r.database) }
    ensures live { GoesOn (L.told live.old) (L.told live.new) (Rounds (is_at_rest (L.attached live.old)) follower.old
        follower.new result) }
    ensures store { disk.GoesOn (S.told store.old) (S.told store.new) (StoresRound keep now result) }
    ensures faith { IfBothTell (L.told live.old) (L.told live.new) (S.told store.old) (S.told store.new)
        (RoundKeepsFaith follower.old follower.new keep now result) }
    ensures keeps { Keeps (L.attached live.old) (L.attached live.new) (L.is_there live.old) (L.is_there live.new) }
    ensures same_folder { S.folder store.new ≡ S.folder store.old }
    ensures causes { HasCauses (L.fault_count live.old) (L.fault_count live.new) (S.fault_count store.old)
        (S.fault_count store.new) result }
{
    let changed = store_changes(alloc, live, store, follower, now)?;
    let sync = changed.sync;
    let passed = pass_when_long(alloc, live, follower)?;
    let upkeep = keep_up(alloc, store, changed, keep, now)?;
    Ok(Round {
        sync,
        passed,
        merged: upkeep.merged,
        dropped: upkeep.dropped,
        lost: upkeep.lost,
    })
}
