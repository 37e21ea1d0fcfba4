//! The retained transactions of a list of names.

ghost use Rattle.std.specs.Prelude.{◌≡◌, ◌↔◌, ◌+◌, ◌<◌, ◌≤◌, IsTrue, IfOk, IfSome, Some, slice_get};
ghost use Rattle.std.specs.Option.{IfNone};
ghost use Rattle.std.specs.List.{Contains};
ghost use Rattle.std.specs.List.Sorted.{IsNonDecreasingBy};
ghost use Rattle.replica_store.specs.declared.file_name.FileName.{FileName};
ghost use Rattle.replica_store.specs.Chain.{MayComeNext};
ghost use Rattle.retention.specs.Retained.{AreRetained, Rises};

use ls_base::{Memory, Txid};
use replica_store::FileName;
use std::alloc::Global;

/// Whether the file may come next after a transaction.
fn may_come_next(name: &FileName, after: u64) -> bool
    ensures { IsTrue result ↔ MayComeNext after name.now }
{
    name.min.number() - 1 <= after && name.max.number() > after
}

/// The retained transactions of names that stand in the order of their last transactions.
fn sweep(alloc: Global, by_end: &[FileName]) -> Result<Vec<Txid>, Memory>
    requires { IsNonDecreasingBy (λ (name : FileName). name.max) by_end.now }
    ensures { IfOk result (λ ts. AreRetained by_end.now ts.items) }
{
    let mut reached = 0;
    let mut retained = Vec::new(alloc);
    for name in by_end {
        if may_come_next(name, reached) {
            reached = name.max.number();
            retained.push(name.max)?;
        }
    }
    Ok(retained)
}

/// The retained transactions of the names, rising.
pub fn retained_in(alloc: Global, names: &[FileName]) -> Result<Vec<Txid>, Memory>
    ensures { IfOk result (λ ts. AreRetained names.now ts.items) }
{
    let mut by_end = Vec::from_slice(alloc, names)?;
    by_end.sort_by_key(|name| name.max.number())?;
    sweep(alloc, by_end.as_slice())
}

/// The place of a transaction among some that rise. `None` exactly where it isn't among them.
pub fn place_of(ts: &[Txid], t: Txid) -> Option<usize>
    requires { Rises ts.now }
    ensures found { IfSome result (λ k. slice_get ts.now k ≡ Some t) }
    ensures none { IfNone result (Contains ts.now t → ⊥) }
{
    let at = ts.partition_point(|one| one.number() < t.number());
    if at < ts.len() && ts[at].number() == t.number() {
        return Some(at);
    }
    None
}
