//! A name that joins a list of names.

ghost use Rattle.std.specs.Prelude.{◌≡◌, ◌<◌, ◌≤◌, ◌-◌, true, false, length, slice_get, IfSome, OnOk, OnErr};
ghost use Rattle.std.specs.Ordering.{is_lt};
ghost use Rattle.replica_store.specs.Chain.{IsListOrdered, list_order, names_of};
ghost use Rattle.replica_upkeep.specs.Levels.{IsWith};

use ls_base::Memory;
use replica_store::{Dated, FileName};

/// The place of the first name that doesn't stand before this one in list order, or the number of all names.
fn place_for(dated: &[Dated], name: &FileName) -> usize
    ensures within { result ≤ length dated.now }
    ensures here { IfSome (slice_get dated.now result) (λ one. is_lt (list_order one.name name.now) ≡ false) }
    ensures before { 0 < result → IfSome (slice_get dated.now (result - 1))
        (λ one. is_lt (list_order one.name name.now) ≡ true) }
{
    for at in 0..dated.len() {
        if dated[at].name >= *name {
            return at;
        }
    }
    dated.len()
}

/// Puts the name with its moment at its place in the list, which stands in list order. `Memory` for want of it, and the
/// list is then as it was.
pub fn add_name(dated: &mut Vec<Dated>, one: Dated) -> Result<(), Memory>
    requires in_order { IsListOrdered (names_of dated.old.items) }
    ensures ok { OnOk result (IsWith dated.old.items one dated.new.items) }
    ensures err { OnErr result (dated.new.items ≡ dated.old.items) }
{
    let place = place_for(dated, &one.name);
    dated.insert(place, one)?;
    Ok(())
}
