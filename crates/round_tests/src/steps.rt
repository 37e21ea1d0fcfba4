//! Two rounds of a run.

ghost use Rattle.std.specs.Prelude.{OnOk};
ghost use Rattle.live_gate.specs.LiveRecord.{IfTold};
ghost use Rattle.round_tests.specs.Ready.{IsReady};

use crash_disk::Disk;
use live_gate::Live;
use replica_round::{Round, round};
use replica_runs::newest_line;
use std::alloc::Global;
use std::test::Fail;
use wal_follow::Follower;

/// Attaches the live database and enters the gate.
fn begin<L: Live>(alloc: Global, live: &mut L) -> Result<(), Fail>
    ensures { OnOk result (IfTold (L.told live.new) (λ r. IsReady r.database)) }
{
    live.attach(alloc, "db", true)?;
    live.enter()?;
    Ok(())
}

/// What two rounds of a run do, one behind the other, which follows the newest line of the replica.
pub fn two_rounds<L: Live, S: Disk>(
    alloc: Global,
    live: &mut L,
    store: &mut S,
    now: u64,
) -> Result<(Round, Round), Fail> {
    begin(alloc, live)?;
    let newest = newest_line(alloc, store)?;
    let mut follower = Follower::start(alloc, newest);
    let first = round(alloc, live, store, &mut follower, 0, now)?;
    let second = round(alloc, live, store, &mut follower, 0, now)?;
    Ok((first, second))
}
