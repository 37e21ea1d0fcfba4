//! A sync.

ghost use Rattle.std.specs.Prelude.{◌≡◌, None, OnOk};
ghost use Rattle.crash_disk.specs.GoesOn as disk;
ghost use Rattle.crash_disk.specs.Told.{Keeps as KeepsFolder};
ghost use Rattle.live_gate.specs.LiveRecord.{IfTold, GoesOn};
ghost use Rattle.live_gate.specs.LiveCalls.{Keeps};
ghost use Rattle.live_gate.specs.Legal.{IsLegal};
ghost use Rattle.wal_follow.specs.Following.{Fits};
ghost use Rattle.wal_follow.specs.Calls.{KnowsPlace};
ghost use Rattle.replica_sync.specs.Newest.{next_moment};
ghost use Rattle.replica_sync.specs.Answers.{IsNamed, HasCauses};
ghost use Rattle.replica_sync.specs.Faith.{IfBothTell, SyncKeepsFaith};
ghost use Rattle.replica_sync.specs.LiveSide.{Syncs, found_of};
ghost use Rattle.replica_sync.specs.Storing.{synced_of};
ghost use Rattle.replica_sync.specs.StoreSide.{Stores};

use crate::answer::SyncFault;
use crate::storing::store_next;
use crash_disk::Disk;
use live_gate::Live;
use replica_store::{Dated, FileName};
use round_line::Synced;
use std::alloc::Global;
use wal_follow::{Follower, Found, Next, Wanted};

/// Stores what changed in the live database since the follower's place, as the file of the next transaction: nothing,
/// a piece, or the whole state where the log doesn't lead on from the place. `dated` are the replica's files as
/// they are now, in list order. The file has the moment `now` (milliseconds since 1970-01-01T00:00:00Z) or that of
/// the newest file, whichever is greater.
///
/// The refusals come in this order: those of the follower's `next`; `TxidSpent` exactly where a file is to be
/// stored and the newest transaction is the last one that there can be; then, while the file is written,
/// `GateBroken`. `Store` and a fault of the live database may come at any moment, and `Memory` before the first byte
/// is written. After a refusal the replica has its files, and at most the one that was to be stored; the place
/// stays the follower's. A replica that told the truth tells it afterwards, too, whatever a crash leaves of it. Takes
/// memory for one page and 64 KiB, besides what `next` takes.
pub fn sync<L: Live, S: Disk>(
    alloc: Global,
    live: &mut L,
    store: &mut S,
    follower: &mut Follower,
    dated: &[Dated],
    now: u64,
) -> Result<Synced, SyncFault>
    requires legal { IfTold (L.told live.old) (λ r. IsLegal r.database) }
    requires fits { IfTold (L.told live.old) (λ r. Fits follower.old r.database) }
    ensures named { IsNamed dated.now result }
    ensures none { OnOk result (follower.new.found ≡ None) }
    ensures known { OnOk result (KnowsPlace follower.new) }
    ensures live { GoesOn (L.told live.old) (L.told live.new) (Syncs follower.old follower.new result) }
    ensures store { disk.GoesOn (S.told store.old) (S.told store.new) (Stores dated.now (next_moment dated.now now)
        result) }
    ensures keeps { Keeps (L.attached live.old) (L.attached live.new) (L.is_there live.old) (L.is_there live.new) }
    ensures keeps_folder { KeepsFolder (S.folder store.old) (S.folder store.new) (S.given store.old)
        (S.given store.new) }
    ensures causes { HasCauses (L.fault_count live.old) (L.fault_count live.new) (S.fault_count store.old)
        (S.fault_count store.new) result }
    ensures faith { IfBothTell (L.told live.old) (L.told live.new) (S.told store.old) (S.told store.new)
        (SyncKeepsFaith follower.old follower.new dated.now now result) }
{
    let next = follower.next(live)?;
    match found_of(next) {
        None => Ok(Synced::Same),
        Some(found) => {
            let name = store_next(alloc, live, store, follower, &found, dated, now)?;
            Ok(synced_of(&found.wanted, name))
        }
    }
}

/// What was found, if anything.
fn found_of(next: Next) -> Option<Found>
    ensures { result ≡ found_of next }
{
    match next {
        Next::Same => None,
        Next::Piece(found) => Some(found),
        Next::Lost(found) => Some(found),
    }
}

/// What was stored under the name.
fn synced_of(wanted: &Wanted, name: FileName) -> Synced
    ensures { result ≡ synced_of wanted.now name }
{
    match wanted {
        Wanted::All => Synced::Whole(name),
        Wanted::Listed(_) => Synced::Piece(name),
    }
}
