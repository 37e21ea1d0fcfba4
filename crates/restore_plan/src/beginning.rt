//! The file with which a plan begins.

ghost use Rattle.std.specs.Prelude.{IfSome};
ghost use Rattle.std.specs.Option.{IfNone};
ghost use Rattle.replica_store.specs.Chain.{IsListOrdered, IsRetained, names_of};
ghost use Rattle.restore_plan.specs.ChosenChain.{BeginsChosenChain};

use crate::listing::Listing;
use crate::sweep::Sweep;
use ls_base::Txid;
use replica_store::{Dated, FileName};

/// The first file of the plan to the transaction. `None` exactly where no chain leads there. The names stand in
/// list order. Takes no memory.
pub fn first_of_plan(dated: &[Dated], t: Txid) -> Option<FileName>
    requires in_order { IsListOrdered (names_of dated.now) }
    ensures found { IfSome result (BeginsChosenChain (names_of dated.now) t) }
    ensures none { IfNone result (IsRetained (names_of dated.now) t → ⊥) }
{
    let names = Listing::of_dated(dated);
    let mut sweep = Sweep::new(&names, t.number());
    let first = sweep.step()?;
    while let Some(_) = sweep.step() {}
    if sweep.after() != t.number() {
        return None;
    }
    Some(first)
}
