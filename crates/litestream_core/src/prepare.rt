//! What a restore reads before it writes.

ghost use Rattle.std.specs.Prelude.{◌≡◌, ◌≢◌, ◌≤◌, [], Some, IfOk, IfErr, OnOk};
ghost use Rattle.replica_store.specs.Chain.{IsListOrdered};
ghost use Rattle.ls_answers.specs.declared.outcome.Why.TheVariants.{StoreFault, TargetFault};
ghost use Rattle.litestream_core.specs.Asked.{AreNames, IsPlan, AreAttached};
ghost use Rattle.litestream_core.specs.Written.{LacksOutput, IfFilesTold};
ghost use Rattle.litestream_core.specs.Preparing.{IsRefusalOf, why_of_plan};
ghost use Rattle.litestream_core.specs.Preparing.{ExplainsOutput, ExplainsReading, ExplainsPrepare};
ghost use Rattle.litestream_core.specs.RequestView.{as_request};

use crate::asked::{asked, refusal};
use crate::request::Request;
use crash_disk::{Disk, NamesFault};
use ls_answers::Why;
use ls_base::Txid;
use replica_store::{FileNames, list};
use restore_plan::{PlanFault, plan};
use std::alloc::Global;

/// The files that a restore applies, and the transaction to which they lead.
#[derive(Drop)]
pub struct Prepared {
    pub plan: FileNames,
    pub txid: Txid,
}

fn store_refusal(fault: NamesFault) -> Why
    ensures { IsRefusalOf StoreFault fault result }
{
    match fault {
        NamesFault::Disk(_) => Why::StoreFault,
        NamesFault::Memory => Why::Memory,
    }
}

fn target_refusal(fault: NamesFault) -> Why
    ensures { IsRefusalOf TargetFault fault result }
{
    match fault {
        NamesFault::Disk(_) => Why::TargetFault,
        NamesFault::Memory => Why::Memory,
    }
}

fn plan_refusal(fault: PlanFault) -> Why
    ensures { result ≡ why_of_plan fault }
{
    match fault {
        PlanFault::MissingRange { after } => Why::MissingRange(after),
        PlanFault::Memory => Why::Memory,
    }
}

/// Looks whether the output's name is free.
fn find_output<T: Disk>(alloc: Global, request: &Request<'_>, target: &mut T) -> Result<(), Why>
    ensures absent { OnOk result (LacksOutput (T.content target.old request.now.folder.now) (as_request request.now)) }
    ensures explained { IfErr result (ExplainsOutput (as_request request.now)
        (T.content target.old request.now.folder.now) (T.fault_count target.old) (T.fault_count target.new)) }
    ensures attached { OnOk result (T.folder target.new ≡ Some request.now.folder.now) }
    ensures unchanged { T.content target.new request.now.folder.now ≡ T.content target.old request.now.folder.now }
    ensures later { T.fault_count target.old ≤ T.fault_count target.new }
{
    let attached = target.attach(alloc, request.folder);
    attached.map_err(target_refusal)?;
    let size = target.size(request.output).map_err(|_| Why::TargetFault)?;
    let Some(size) = size else {
        return Ok(());
    };
    if request.if_db_not_exists {
        return Err(Why::SkippedOutput);
    }
    Err(Why::OutputExists(size))
}

/// The names of the replica, of which there are some.
fn find_names<S: Disk>(
    alloc: Global,
    request: &Request<'_>,
    store: &mut S,
) -> Result<FileNames, Why>
    ensures some { IfOk result (λ names. names ≢ []) }
    ensures in_order { IfOk result (λ names. IsListOrdered names) }
    ensures names { IfOk result (λ names. IfFilesTold (S.content store.old request.now.replica.now)
        (λ files. AreNames files names)) }
    ensures attached { OnOk result (S.folder store.new ≡ Some request.now.replica.now) }
    ensures explained { IfErr result (ExplainsReading (as_request request.now)
        (S.content store.old request.now.replica.now) (S.fault_count store.old) (S.fault_count store.new)) }
    ensures unchanged { S.content store.new request.now.replica.now ≡ S.content store.old request.now.replica.now }
    ensures later { S.fault_count store.old ≤ S.fault_count store.new }
{
    let attached = store.attach(alloc, request.replica);
    attached.map_err(store_refusal)?;
    let names = list(alloc, store).map_err(refusal)?;
    if !names.as_slice().is_empty() {
        return Ok(names);
    }
    if request.if_replica_exists {
        return Err(Why::SkippedReplica);
    }
    Err(Why::NoReplica)
}

/// The plan of the request.
fn find_plan<S: Disk>(alloc: Global, request: &Request<'_>, store: &mut S) -> Result<Prepared, Why>
    ensures some { IfOk result (λ ready. ready.plan ≢ []) }
    ensures plan { IfOk result (λ ready. IfFilesTold (S.content store.old request.now.replica.now)
        (λ files. IsPlan files (as_request request.now) ready.txid ready.plan)) }
    ensures attached { OnOk result (S.folder store.new ≡ Some request.now.replica.now) }
    ensures explained { IfErr result (ExplainsReading (as_request request.now)
        (S.content store.old request.now.replica.now) (S.fault_count store.old) (S.fault_count store.new)) }
    ensures unchanged { S.content store.new request.now.replica.now ≡ S.content store.old request.now.replica.now }
    ensures later { S.fault_count store.old ≤ S.fault_count store.new }
{
    let names = find_names(alloc, request, store)?;
    let txid = asked(alloc, request, store, names.as_slice())?;
    let plan = match plan(alloc, names.as_slice(), txid) {
        Ok(plan) => plan,
        Err(fault) => return Err(plan_refusal(fault)),
    };
    Ok(Prepared { plan, txid })
}

/// Reads what a restore needs to know before it writes. Nothing is changed.
pub fn prepare<S: Disk, T: Disk>(
    alloc: Global,
    request: &Request<'_>,
    store: &mut S,
    target: &mut T,
) -> Result<Prepared, Why>
    ensures absent { IfOk result (λ _. LacksOutput (T.content target.old request.now.folder.now)
        (as_request request.now)) }
    ensures some { IfOk result (λ ready. ready.plan ≢ []) }
    ensures plan { IfOk result (λ ready. IfFilesTold (S.content store.old request.now.replica.now)
        (λ files. IsPlan files (as_request request.now) ready.txid ready.plan)) }
    ensures attached { OnOk result (AreAttached (as_request request.now) (S.folder store.new) (T.folder target.new)) }
    ensures explained { IfErr result (ExplainsPrepare (as_request request.now)
        (S.content store.old request.now.replica.now) (S.fault_count store.old) (S.fault_count store.new)
        (T.content target.old request.now.folder.now) (T.fault_count target.old) (T.fault_count target.new)) }
    ensures store_unchanged { S.content store.new request.now.replica.now
        ≡ S.content store.old request.now.replica.now }
    ensures target_unchanged { T.content target.new request.now.folder.now ≡ T.content target.old
        request.now.folder.now }
    ensures store_later { S.fault_count store.old ≤ S.fault_count store.new }
    ensures target_later { T.fault_count target.old ≤ T.fault_count target.new }
{
    find_output(alloc, request, target)?;
    find_plan(alloc, request, store)
}
