//! Which transactions are retained.

ghost use Rattle.std.specs.Prelude.{◌≡◌, ◌+◌, ◌<◌, ◌^◌, ◌↔◌, IsTrue};
ghost use Rattle.replica_store.specs.Chain.{IsListOrdered, IsRetained};
ghost use Rattle.restore_plan.specs.Retained.{IsGreatestRetainedBelow};

use crate::listing::Listing;
use crate::sweep::Sweep;
use ls_base::Txid;
use replica_store::FileName;

/// The greatest retained transaction up to t, 0 where there is none. Takes no memory.
pub fn greatest_retained(names: &Listing<'_>, t: u64) -> u64
    requires in_order { IsListOrdered names.now }
    ensures { IsGreatestRetainedBelow names.now (t + 1) result }
{
    let mut sweep = Sweep::new(names, t);
    while let Some(_) = sweep.step() {}
    sweep.after()
}

/// Whether a chain of the names leads to the transaction. The names stand in list order. Takes no memory.
pub fn retained(names: &[FileName], t: Txid) -> bool
    requires in_order { IsListOrdered names.now }
    ensures { IsTrue result ↔ IsRetained names.now t }
{
    let names = Listing::of_names(names);
    greatest_retained(&names, t.number()) == t.number()
}
