//! A sync of a live database that was attached anew.

ghost use Rattle.std.specs.Prelude.{option_map, OnOk};
ghost use Rattle.live_gate.specs.LiveRecord.{IfTold};
ghost use Rattle.live_gate.specs.Legal.{IsLegal};
ghost use Rattle.snapshot_read.specs.Reading.{IsUnderGate};
ghost use Rattle.wal_follow.specs.Calls.{IsBehindHeader};

use crash_disk::MemDisk;
use live_gate::{Live, PassFault, StillLive};
use ls_base::Line;
use replica_store::{dated, list};
use replica_sync::{Synced, sync};
use std::alloc::Global;
use std::test::Fail;
use wal_follow::Follower;

/// Attaches the live database, and takes the gate.
fn enter<L: Live>(alloc: Global, live: &mut L) -> Result<(), PassFault>
    ensures legal { OnOk result (IfTold (L.told live.new) (λ r. IsLegal r.database)) }
    ensures gate { OnOk result (IfTold (L.told live.new) (λ r. IsUnderGate r.database)) }
{
    live.attach(alloc, "db", false)?;
    live.enter()?;
    Ok(())
}

/// What a sync answers whose replica has this line as its newest one.
pub fn synced(
    alloc: Global,
    live: &mut StillLive,
    store: &mut MemDisk,
    newest: Option<Line>,
    now: u64,
) -> Result<Synced, Fail>
    requires behind { IsBehindHeader (option_map (λ line. line.place) newest) }
{
    enter(alloc, live)?;
    let names = list(alloc, store)?;
    let moments = dated(alloc, store, names.as_slice())?;
    let mut follower = Follower::start(alloc, newest);
    let answer = sync(alloc, live, store, &mut follower, moments.as_slice(), now)?;
    Ok(answer)
}
