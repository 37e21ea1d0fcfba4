//! Which of the retained transactions are young, and the one that a chain over each leads on to.

ghost use Rattle.std.specs.Prelude.{◌≡◌, length, IfOk};
ghost use Rattle.retention.specs.Retained.{Rises};
ghost use Rattle.retention.specs.Young.{AreYoung, AreGoals};

use crate::retained::place_of;
use ls_base::{Memory, Txid};
use replica_store::Dated;
use std::alloc::Global;

/// Of each of the transactions, which rise, whether its moment isn't before the cut. Its moment is that of the
/// first name that ends with it.
pub fn young(alloc: Global, dated: &[Dated], ts: &[Txid], cut: u64) -> Result<Vec<bool>, Memory>
    requires { Rises ts.now }
    ensures { IfOk result (λ young. AreYoung dated.now cut ts.now young.items) }
{
    let mut young = vec![in alloc; false; ts.len()]?;
    let mut i = dated.len();
    while i > 0 {
        i -= 1;
        let one = dated[i];
        if let Some(k) = place_of(ts, one.name.max) {
            young[k] = one.moment >= cut;
        }
    }
    Ok(young)
}

/// Of each of the transactions the first from it on that is young, or the last one.
pub fn goals(alloc: Global, ts: &[Txid], young: &[bool]) -> Result<Vec<Txid>, Memory>
    requires { length young.now ≡ length ts.now }
    ensures { IfOk result (λ goals. AreGoals ts.now young.now goals.items) }
{
    let mut goals = Vec::from_slice(alloc, ts)?;
    let mut k = goals.len();
    while k > 1 {
        k -= 1;
        if !young[k - 1] {
            goals[k - 1] = goals[k];
        }
    }
    Ok(goals)
}
