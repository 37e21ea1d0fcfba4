//! Replicating a database.

ghost use Rattle.std.specs.Prelude.{◌≡◌, OnOk};
ghost use Rattle.live_gate.specs.LiveRecord.{IfTold, GoesOn};
ghost use Rattle.live_gate.specs.Legal.{IsLegal};
ghost use Rattle.replicate_command.specs.Asked.{asked_by};
ghost use Rattle.replicate_command.specs.Attaching.{AttachesBoth, IsBound, AttachHasCause};
ghost use Rattle.replicate_command.specs.Ends.{ReplicateEnds};
ghost use Rattle.replicate_command.specs.Seen.{seen_of};
ghost use Rattle.replicate_command.specs.Stop.{why_of};

use crate::request::Request;
use crate::rounds::under_gate;
use crate::stop::ReplicateStop;
use crash_disk::{Disk, Out};
use live_gate::{Attached, Live};
use ls_answers::Why;
use replica_store::settle;
use std::alloc::Global;

/// Stores what changes in the database in the replica's folder, in as many rounds as are asked for, and prints a line
/// for each. A round also empties a log of 1000 frames or more, where the request says that nobody else has the
/// database open; it merges the replica's files, and drops those that are older than `request.keep` before `now`, as
/// far as no transaction is lost that is to stay. `now` is the moment of the call, in ms since 1970-01-01T00:00:00Z.
///
/// The steps, and so the refusals, come in this order: `live` is attached to the database (`NoDatabase` where none is
/// at the path) and `store` to the replica's folder; the names of the files are brought to the disk; the gate is
/// entered; the header of the newest file is read, where its transaction is retained (`Damaged`); then comes each
/// round, with the refusals of `round` (`Damaged` and `PageMissing` also for a file of a run that was due to be
/// merged), and its line; at last the gate is left, also after a refusal. A fault of an object comes only where its
/// count of faults rose, or stands at its last value. No file of a replica that tells the truth is blamed.
///
/// After a refusal the replica has what the rounds that ended stored, and at most one transaction more. Whatever the
/// answer, each of its files has its bytes, or was older than that and is gone or written anew.
pub fn replicate<L: Live, S: Disk, O: Out>(
    alloc: Global,
    request: &Request<'_>,
    now: u64,
    live: &mut L,
    store: &mut S,
    out: &mut O,
) -> Why
    ensures { ReplicateEnds (seen_of L.Live S.Disk O.Out (asked_by request.now now) live.old live.new store.old
        store.new out.old out.new) result }
{
    match run(alloc, request, now, live, store, out) {
        Ok(()) => Why::Done,
        Err(stop) => stop.why(),
    }
}

/// The replication, with the stop that ended it.
fn run<L: Live, S: Disk, O: Out>(
    alloc: Global,
    request: &Request<'_>,
    now: u64,
    live: &mut L,
    store: &mut S,
    out: &mut O,
) -> Result<(), ReplicateStop>
    ensures { ReplicateEnds (seen_of L.Live S.Disk O.Out (asked_by request.now now) live.old live.new store.old
        store.new out.old out.new) (why_of result) }
{
    attach(alloc, request, live, store)?;
    settle(store)?;
    let ended = under_gate(alloc, request, now, live, store, out);
    // A fault of this call has nowhere to go: the run has its answer, and the next `attach` gives the hold up.
    let _ = live.leave();
    ended
}

/// Attaches the live database and the replica's disk.
fn attach<L: Live, S: Disk>(
    alloc: Global,
    request: &Request<'_>,
    live: &mut L,
    store: &mut S,
) -> Result<(), ReplicateStop>
    ensures live { GoesOn (L.content live.old request.now.db.now) (L.content live.new request.now.db.now)
        (AttachesBoth result) }
    ensures legal { OnOk result (IfTold (L.told live.new) (λ r. IsLegal r.database)) }
    ensures store { S.content store.new request.now.replica.now ≡ S.content store.old request.now.replica.now }
    ensures attached { OnOk result (IsBound (asked_by request.now 0) (L.attached live.new) (S.folder store.new)) }
    ensures there { L.is_there live.new ≡ L.is_there live.old }
    ensures cause { AttachHasCause (L.content live.old request.now.db.now)
        (L.is_there live.old request.now.db.now) (L.fault_count live.old) (L.fault_count live.new)
        (S.fault_count store.old) (S.fault_count store.new) result }
{
    match live.attach(alloc, request.db, request.at_rest)? {
        Attached::Found => {}
        Attached::Absent => return Err(ReplicateStop::NoDatabase),
    }
    store.attach(alloc, request.replica)?;
    Ok(())
}
