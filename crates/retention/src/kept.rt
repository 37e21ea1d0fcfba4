//! Which names are kept.

ghost use Rattle.std.specs.Prelude.{◌≡◌, nat_le, map, IfOk};
ghost use Rattle.replica_store.specs.declared.dated_names.Dated.{Dated};
ghost use Rattle.retention.specs.Stretch.{AreOrdered};
ghost use Rattle.retention.specs.Claims.{AreClaims};
ghost use Rattle.retention.specs.Kept.{AreKept};

use crate::claim::Claim;
use crate::painting::{is_painted, paint, unpainted};
use crate::stretch::{Stretch, span_of};
use ls_base::Memory;
use replica_store::Dated;
use std::alloc::Global;

/// Of each name whether it isn't before the cut.
fn young_names(alloc: Global, dated: &[Dated], cut: u64) -> Result<Vec<bool>, Memory>
    ensures { IfOk result (λ young. young.items ≡ map (λ (one : Dated). nat_le cut one.moment) dated.now) }
{
    Ok(dated.iter().map(|one| cut <= one.moment).collect(alloc)?)
}

/// Of each name whether it is kept: the young ones, and from the first name on each old one to which a stretch
/// falls that no kept one before it spans.
pub fn kept_names(
    alloc: Global,
    dated: &[Dated],
    cut: u64,
    stretches: &[Stretch],
    claims: &[Claim],
) -> Result<Vec<bool>, Memory>
    requires ordered { AreOrdered stretches.now }
    requires claims { AreClaims dated.now cut stretches.now claims.now }
    ensures { IfOk result (λ kept. AreKept dated.now cut stretches.now claims.now kept.items) }
{
    let mut painting = unpainted(alloc, stretches.len())?;
    let skips = painting.as_mut_slice();
    let mut kept = young_names(alloc, dated, cut)?;
    let mut p = claims.len();
    while p > 0 {
        p -= 1;
        let claim = claims[p];
        if !is_painted(skips, claim.stretch) {
            let one = dated[claim.name];
            kept[claim.name] = true;
            paint(skips, span_of(stretches, &one.name));
        }
    }
    Ok(kept)
}
