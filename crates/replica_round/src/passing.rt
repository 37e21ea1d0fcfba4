//! A pass over a log that has grown long.

ghost use Rattle.std.specs.Prelude.{◌≡◌, None, OnOk};
ghost use Rattle.live_gate.specs.Cause.{PassHasCause};
ghost use Rattle.live_gate.specs.LiveRecord.{IfTold, GoesOn, is_at_rest};
ghost use Rattle.live_gate.specs.LiveCalls.{Keeps};
ghost use Rattle.live_gate.specs.Legal.{IsLegal};
ghost use Rattle.wal_follow.specs.Following.{Fits};
ghost use Rattle.replica_round.specs.Passing.{HasPages, PassesWhenLong};

use live_gate::{Live, Pass, PassFault};
use std::alloc::Global;
use wal_follow::Follower;

/// From so many frames on a log is long.
const LONG_LOG: u64 = 1000;

/// Asks for a pass where the log is long up to the follower's place: all frames are copied into the database file, and
/// the log is empty then. Whether it took place; the follower knows of it then. A fault or want of memory leaves it
/// open whether it did.
pub(crate) fn pass_when_long<L: Live>(
    alloc: Global,
    live: &mut L,
    follower: &mut Follower,
) -> Result<bool, PassFault>
    requires legal { IfTold (L.told live.old) (λ r. IsLegal r.database) }
    requires fits { IfTold (L.told live.old) (λ r. Fits follower.old r.database) }
    requires pages { HasPages follower.old }
    requires none { follower.old.found ≡ None }
    ensures told { GoesOn (L.told live.old) (L.told live.new)
        (PassesWhenLong follower.old follower.new (is_at_rest (L.attached live.old)) result) }
    ensures fits { OnOk result (IfTold (L.told live.new) (λ r. Fits follower.new r.database)) }
    ensures place { follower.new.place ≡ follower.old.place }
    ensures keeps { Keeps (L.attached live.old) (L.attached live.new) (L.is_there live.old) (L.is_there live.new) }
    ensures cause { PassHasCause (L.fault_count live.old) (L.fault_count live.new) result }
{
    if follower.frames() < LONG_LOG {
        return Ok(false);
    }
    let Some(place) = follower.place().copied() else {
        return Ok(false);
    };
    match live.pass(alloc, &place)? {
        Pass::Passed => {
            follower.passed();
            Ok(true)
        }
        Pass::Kept => Ok(false),
    }
}
