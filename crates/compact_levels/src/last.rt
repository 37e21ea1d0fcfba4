//! The last file of a level, and the newest transaction.

ghost use Rattle.std.specs.Prelude.{◌≡◌, ◌↔◌, ◌<◌, ◌≤◌, ◌⊎◌, ◌++◌, ◌∷◌, [], List, IsTrue};
ghost use Rattle.std.specs.List.{Contains};
ghost use Rattle.replica_store.specs.declared.file_name.FileName.{FileName};
ghost use Rattle.replica_store.specs.Chain.{names_of};
ghost use Rattle.compact_levels.specs.Pile.{IsLastSoFar};

use replica_store::{Dated, FileName};

/// Whether the name ends beyond the other, or with it and stands before it in list order.
fn is_later(name: &FileName, other: &FileName) -> bool
    ensures { IsTrue result ↔ ((other.now.max < name.now.max)
        ⊎ ((name.now.max ≡ other.now.max) × (name.now.min < other.now.min))) }
{
    name.max > other.max || (name.max == other.max && name.min < other.min)
}

/// The last file of the level among some names, with this name more.
fn last_with(last: Option<FileName>, name: FileName, level: u8) -> Option<FileName>
    ensures { (names : List FileName) → IsLastSoFar names level last
        → IsLastSoFar (names ++ name ∷ []) level result }
{
    if name.level != level {
        return last;
    }
    let Some(other) = last else {
        return Some(name);
    };
    Some(if is_later(&name, &other) { name } else { other })
}

/// The file of the level that ends last, of several such files the first in list order. `None` exactly where the
/// level has none.
pub fn last_of(dated: &[Dated], level: u8) -> Option<FileName>
    ensures { IsLastSoFar (names_of dated.now) level result }
{
    let mut last = None;
    for one in dated {
        last = last_with(last, one.name, level);
    }
    last
}

/// The newest transaction that a name ends with, 0 where there are no names.
pub fn newest(dated: &[Dated]) -> u64
    ensures bound { (name : FileName) → Contains (names_of dated.now) name → name.max ≤ result }
    ensures there { 0 < result → (name : FileName) × Contains (names_of dated.now) name × (name.max ≡ result) }
{
    let mut newest = 0;
    for one in dated {
        newest = one.name.max.number().max(newest);
    }
    newest
}
