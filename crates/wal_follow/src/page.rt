//! The pages of what the follower found.

ghost use Rattle.std.specs.Prelude.{◌≡◌, ◌≤◌, length, Some};
ghost use Rattle.std.specs.FinMap as map;
ghost use Rattle.live_gate.specs.LiveRecord.{IfTold, GoesOn};
ghost use Rattle.live_gate.specs.LiveCalls.{Keeps};
ghost use Rattle.snapshot_read.specs.Offsets.{AreWithinLimit};
ghost use Rattle.wal_follow.specs.Following.{Fits, gathered_at};
ghost use Rattle.wal_follow.specs.Calls.{target_of, FollowHasCause, GivesWanted, IsPageAnswer};

use crate::answer::Found;
use crate::fault::FollowFault;
use crate::follower::Follower;
use live_gate::Live;
use snapshot_read::{PageMap, page_at};

impl Follower {
    /// Fills `into`, which has the page size, with a page of what the last `next` found, by its number from 1
    /// to its commit. `GateBroken(Short)` where the log ended before the page, or `Live`; nothing else.
    pub fn page<L: Live>(
        &self,
        live: &mut L,
        found: &Found,
        number: u32,
        into: &mut [u8],
    ) -> Result<(), FollowFault>
        requires found { self.now.found ≡ Some (target_of found.now) }
        requires from { 1 ≤ number }
        requires upto { number ≤ found.now.commit }
        requires whole { length into.old ≡ found.now.size }
        requires fits { IfTold (L.told live.old) (λ r. Fits self.now r.database) }
        ensures told { GoesOn (L.told live.old) (L.told live.new)
            (GivesWanted self.now (target_of found.now) number result into.new) }
        ensures answer { IsPageAnswer result }
        ensures keeps { Keeps (L.attached live.old) (L.attached live.new) (L.is_there live.old) (L.is_there live.new) }
        ensures cause { FollowHasCause (L.fault_count live.old) (L.fault_count live.new) result }
    {
        let following = &self.following;
        let map = newest(following.fresh, &following.kept, &following.newer, number);
        page_at(live, map, found.size, number, into)?;
        Ok(())
    }
}

/// Of two maps the one in which a page's last offset is.
fn newest<'a>(fresh: bool, kept: &'a PageMap, newer: &'a PageMap, number: u32) -> &'a PageMap
    requires kept { AreWithinLimit 65536 kept.now.offsets }
    requires newer { AreWithinLimit 65536 newer.now.offsets }
    ensures at { map.get result.now.offsets number ≡ gathered_at fresh kept.now.offsets newer.now.offsets number }
    ensures within { AreWithinLimit 65536 result.now.offsets }
{
    if fresh || newer.has(number) {
        return newer;
    }
    kept
}
