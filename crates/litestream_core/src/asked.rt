//! Which transaction a restore asks for.

ghost use Rattle.std.specs.Prelude.{◌≡◌, ◌≢◌, ◌≤◌, [], IfOk, IfErr};
ghost use Rattle.replica_store.specs.Chain.{IsListOrdered};
ghost use Rattle.litestream_core.specs.Asked.{AreNames, IsNewest, IsOfMoment, IsAsked};
ghost use Rattle.litestream_core.specs.Written.{IfFilesTold};
ghost use Rattle.litestream_core.specs.Preparing.{why_of_error, ExplainsMoment, ExplainsReading};
ghost use Rattle.litestream_core.specs.RequestView.{as_request};

use crate::request::Request;
use crash_disk::Disk;
use ls_answers::Why;
use ls_base::Txid;
use ls_words::Target;
use replica_store::{FileName, StoreError, dated};
use restore_plan::last_at;
use std::alloc::Global;

/// The greatest transaction with which one of the names ends.
fn newest(names: &[FileName]) -> Txid
    requires some { names.now ≢ [] }
    ensures { IsNewest names.now result }
{
    let mut newest = names[0].max;
    for name in names {
        if name.max > newest {
            newest = name.max;
        }
    }
    newest
}

/// The answer that an error of the replica becomes.
pub fn refusal(error: StoreError) -> Why
    ensures { result ≡ why_of_error error }
{
    match error {
        StoreError::Store(_) => Why::StoreFault,
        StoreError::Damaged(name, damage) => Why::Damaged(name, damage),
        StoreError::Memory => Why::Memory,
    }
}

/// The last retained transaction at or before the moment, by the headers of the files.
fn at_moment<S: Disk>(
    alloc: Global,
    store: &mut S,
    names: &[FileName],
    moment: i64,
) -> Result<Txid, Why>
    requires in_order { IsListOrdered names.now }
    ensures of_moment { IfOk result (λ t. IfFilesTold (S.told store.old)
        (λ files. IsOfMoment files names.now moment t)) }
    ensures explained { IfErr result (ExplainsMoment (S.told store.old) (S.fault_count store.old)
        (S.fault_count store.new) names.now moment) }
    ensures unchanged { S.told store.new ≡ S.told store.old }
    ensures same_folder { S.folder store.new ≡ S.folder store.old }
    ensures later { S.fault_count store.old ≤ S.fault_count store.new }
{
    let Ok(ms) = u64::try_from(moment) else {
        return Err(Why::NoMoment);
    };
    let dated = dated(alloc, store, names).map_err(refusal)?;
    let Some(t) = last_at(dated.as_slice(), ms) else {
        return Err(Why::NoMoment);
    };
    Ok(t)
}

/// The transaction that the request asks for, of the replica's names.
pub fn asked<S: Disk>(
    alloc: Global,
    request: &Request<'_>,
    store: &mut S,
    names: &[FileName],
) -> Result<Txid, Why>
    requires some { names.now ≢ [] }
    requires in_order { IsListOrdered names.now }
    requires names { IfFilesTold (S.told store.old) (λ files. AreNames files names.now) }
    ensures asked { IfOk result (λ t. IfFilesTold (S.told store.old)
        (λ files. IsAsked files names.now request.now.target t)) }
    ensures explained { IfErr result (ExplainsReading (as_request request.now) (S.told store.old)
        (S.fault_count store.old) (S.fault_count store.new)) }
    ensures unchanged { S.told store.new ≡ S.told store.old }
    ensures same_folder { S.folder store.new ≡ S.folder store.old }
    ensures later { S.fault_count store.old ≤ S.fault_count store.new }
{
    match request.target {
        Target::Newest => Ok(newest(names)),
        Target::At(txid) => Ok(txid),
        Target::Moment(moment) => at_moment(alloc, store, names, moment),
    }
}
