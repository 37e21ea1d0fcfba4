//! The files that make the whole database.

ghost use Rattle.std.specs.Prelude.{IfSome};
ghost use Rattle.std.specs.Option.{IfNone};
ghost use Rattle.replica_store.specs.Chain.{IsListOrdered, names_of};
ghost use Rattle.compact_levels.specs.Pile.{LeadsToNewest};
ghost use Rattle.compact_levels.specs.declared.files.Files.{Files};

use crate::files::Files;
use crate::last::newest;
use ls_base::Txid;
use replica_store::Dated;
use restore_plan::first_of_plan;

/// The chosen chain to the newest transaction. `None` exactly where that isn't beyond `after` or isn't retained.
pub fn chain_to_newest(dated: &[Dated], after: u64) -> Option<Files>
    requires in_order { IsListOrdered (names_of dated.now) }
    ensures found { IfSome result (LeadsToNewest (names_of dated.now) after) }
    ensures none { IfNone result ((files : Files) → LeadsToNewest (names_of dated.now) after files → ⊥) }
{
    let newest = newest(dated);
    if newest <= after {
        return None;
    }
    let end = Txid::new(newest)?;
    let first = first_of_plan(dated, end)?;
    Some(Files { first, end })
}
