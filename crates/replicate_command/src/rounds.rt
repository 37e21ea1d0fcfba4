//! The rounds of a replication.

ghost use Rattle.std.specs.Prelude.{◌≡◌, ℕ, List, Option, OnOk, IfOk};
ghost use Rattle.live_gate.specs.LiveRecord.{IfTold};
ghost use Rattle.live_gate.specs.LiveCalls.{Keeps};
ghost use Rattle.live_gate.specs.Legal.{IsLegal};
ghost use Rattle.wal_follow.specs.Following.{Fits};
ghost use Rattle.replicate_command.specs.Asked.{Asked, asked_by};
ghost use Rattle.replicate_command.specs.Stage.{RunsOn, stage_of, silent_stage_of, Anything, IsAt, IsAtResult};
ghost use Rattle.replicate_command.specs.Stop.{why_of};

use crate::request::Request;
use crate::stop::ReplicateStop;
use crash_disk::{Disk, Out};
use live_gate::Live;
use replica_round::round;
use replica_runs::newest_line;
use round_line::round_line;
use std::alloc::Global;
use wal_follow::Follower;

/// Enters the gate, and makes the follower of the newest line.
fn begin<L: Live, S: Disk>(
    alloc: Global,
    live: &mut L,
    store: &mut S,
) -> Result<Follower, ReplicateStop>
    requires legal { IfTold (L.told live.old) (λ r. IsLegal r.database) }
    ensures runs { (asked : Asked) (text : Option (List ℕ)) (sink_faults : ℕ)
        → RunsOn 1 0 Anything (IsAtResult result) (silent_stage_of L.Live S.Disk asked live.old live.new store.old
        store.new text sink_faults) (why_of result) }
    ensures fits { IfOk result (λ follower. IfTold (L.told live.new) (λ r. Fits follower r.database)) }
    ensures keeps { Keeps (L.attached live.old) (L.attached live.new) (L.is_there live.old) (L.is_there live.new) }
    ensures same_folder { S.folder store.new ≡ S.folder store.old }
{
    live.enter()?;
    let line = newest_line(alloc, store)?;
    Ok(Follower::start(alloc, line))
}

/// A round, and its line with this number.
fn one_round<L: Live, S: Disk, O: Out>(
    alloc: Global,
    request: &Request<'_>,
    now: u64,
    number: u32,
    follower: &mut Follower,
    live: &mut L,
    store: &mut S,
    out: &mut O,
) -> Result<(), ReplicateStop>
    requires legal { IfTold (L.told live.old) (λ r. IsLegal r.database) }
    requires fits { IfTold (L.told live.old) (λ r. Fits follower.old r.database) }
    ensures runs { RunsOn number 1 (IsAt follower.old.place) (IsAt follower.new.place) (stage_of L.Live S.Disk O.Out
        (asked_by request.now now) live.old live.new store.old store.new out.old out.new) (why_of result) }
    ensures fits { OnOk result (IfTold (L.told live.new) (λ r. Fits follower.new r.database)) }
    ensures keeps { Keeps (L.attached live.old) (L.attached live.new) (L.is_there live.old) (L.is_there live.new) }
    ensures same_folder { S.folder store.new ≡ S.folder store.old }
{
    let done = round(alloc, live, store, follower, request.keep, now)?;
    out.put(round_line(number, &done).as_slice())?;
    Ok(())
}

/// The rounds that are asked for.
fn rounds<L: Live, S: Disk, O: Out>(
    alloc: Global,
    request: &Request<'_>,
    now: u64,
    follower: &mut Follower,
    live: &mut L,
    store: &mut S,
    out: &mut O,
) -> Result<(), ReplicateStop>
    requires legal { IfTold (L.told live.old) (λ r. IsLegal r.database) }
    requires fits { IfTold (L.told live.old) (λ r. Fits follower.old r.database) }
    ensures runs { RunsOn 1 request.now.rounds (IsAt follower.old.place) (IsAt follower.new.place)
        (stage_of L.Live S.Disk O.Out (asked_by request.now now) live.old live.new store.old store.new
        out.old out.new) (why_of result) }
    ensures keeps { Keeps (L.attached live.old) (L.attached live.new) (L.is_there live.old) (L.is_there live.new) }
    ensures same_folder { S.folder store.new ≡ S.folder store.old }
{
    for before in 0..request.rounds {
        one_round(alloc, request, now, before + 1, follower, live, store, out)?;
    }
    Ok(())
}

/// What is done under the gate.
pub fn under_gate<L: Live, S: Disk, O: Out>(
    alloc: Global,
    request: &Request<'_>,
    now: u64,
    live: &mut L,
    store: &mut S,
    out: &mut O,
) -> Result<(), ReplicateStop>
    requires legal { IfTold (L.told live.old) (λ r. IsLegal r.database) }
    ensures runs { RunsOn 1 request.now.rounds Anything Anything (stage_of L.Live S.Disk O.Out
        (asked_by request.now now) live.old live.new store.old store.new out.old out.new) (why_of result) }
    ensures keeps { Keeps (L.attached live.old) (L.attached live.new) (L.is_there live.old) (L.is_there live.new) }
    ensures same_folder { S.folder store.new ≡ S.folder store.old }
{
    let mut follower = begin(alloc, live, store)?;
    rounds(alloc, request, now, &mut follower, live, store, out)
}
