//! What is dropped of a list of names.

ghost use Rattle.std.specs.Prelude.{◌≡◌, IfOk};
ghost use Rattle.replica_store.specs.Chain.{names_of};
ghost use Rattle.retention.specs.Drops.{AreDrops};

use crate::decision::{decide, gone, left, missing};
use crate::outcome::Drops;
use crate::retained::retained_in;
use ls_base::Memory;
use replica_store::{Dated, FileName};
use std::alloc::Global;

/// The names without their moments.
fn names_in(alloc: Global, dated: &[Dated]) -> Result<Vec<FileName>, Memory>
    ensures { IfOk result (λ names. names.items ≡ names_of dated.now) }
{
    Ok(dated.iter().map(|one| one.name).collect(alloc)?)
}

/// The names to drop, of those with a moment before the cut, in milliseconds since 1970-01-01T00:00:00Z. They are
/// decided on one after the other, in the order of the list, which is list order. One goes exactly where each
/// protected transaction stays retained without it. Protected are the retained transactions with a moment that
/// isn't before the cut, and the greatest retained one. `Memory` for want of it.
pub fn drops(alloc: Global, dated: &[Dated], cut: u64) -> Result<Drops, Memory>
    ensures list { IfOk result (λ drops. drops.dated ≡ dated.now) }
    ensures cut { IfOk result (λ drops. drops.cut ≡ cut) }
    ensures drops { IfOk result (λ drops. AreDrops dated.now cut drops.names drops.lost) }
{
    let all = names_in(alloc, dated)?;
    let before = retained_in(alloc, all.as_slice())?;
    let kept = decide(alloc, dated, cut, before.as_slice())?;
    let stay = left(alloc, dated, kept.as_slice())?;
    let after = retained_in(alloc, stay.as_slice())?;
    let lost = missing(alloc, before.as_slice(), after.as_slice())?;
    let names = gone(alloc, dated, kept.as_slice())?;
    Ok(Drops::of(Vec::from_slice(alloc, dated)?, cut, names, lost))
}
