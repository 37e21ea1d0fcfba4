//! Which name each stretch falls to.

ghost use Rattle.std.specs.Prelude.{◌≡◌, ◌↔◌, ℕ, ◌+◌, ◌<◌, ◌≤◌, ◌⊎◌, IsTrue, IfOk, OnOk, length};
ghost use Rattle.retention.specs.declared.claim.Claim.{Claim};
ghost use Rattle.retention.specs.Stretch.{AreOrdered};
ghost use Rattle.retention.specs.Painting.{IsPainted, AreSkips, ArePainted};
ghost use Rattle.retention.specs.Claims.{AreClaimed, AreClaims, YoungSpans};

use crate::painting::{paint, take, unpainted};
use crate::stretch::{Span, Stretch, span_of};
use ls_base::Memory;
use replica_store::Dated;
use std::alloc::Global;

/// The stretch at a place falls to the name at a place: it goes only with another one in its stead.
#[derive(Clone, Copy)]
pub struct Claim {
    pub name: usize,
    pub stretch: usize,
}

/// Paints each stretch of the span, and lets those that weren't painted fall to the name.
fn claim_span(
    skips: &mut [usize],
    span: Span,
    name: usize,
    claims: &mut Vec<Claim>,
) -> Result<(), Memory>
    requires skips { AreSkips skips.old }
    requires within { span.to ≤ length skips.old }
    ensures skips { OnOk result (AreSkips skips.new) }
    ensures painted { OnOk result (ArePainted span.from span.to skips.old skips.new) }
    ensures claims { OnOk result (AreClaimed span.from span.to name skips.old claims.old.items claims.new.items) }
{
    let mut from = span.from;
    while let Some(stretch) = take(skips, from, span.to) {
        claims.push(Claim { name, stretch })?;
        from = stretch + 1;
    }
    Ok(())
}

/// Paints the stretches that young names span.
fn paint_young(skips: &mut [usize], dated: &[Dated], cut: u64, stretches: &[Stretch])
    requires skips { AreSkips skips.old }
    requires count { length skips.old ≡ length stretches.now }
    requires none { (k : ℕ) → IsPainted skips.old k → ⊥ }
    requires ordered { AreOrdered stretches.now }
    ensures skips { AreSkips skips.new }
    ensures each { (k : ℕ) → IsPainted skips.new k → (i : ℕ) × YoungSpans dated.now cut stretches.now i k }
    ensures all { (i k : ℕ) → k < length stretches.now → YoungSpans dated.now cut stretches.now i k
        → IsPainted skips.new k }
{
    for one in dated {
        if one.moment >= cut {
            paint(skips, span_of(stretches, &one.name));
        }
    }
}

/// The claims on the stretches that no young name spans, those of the last names in the list first.
pub fn claims(
    alloc: Global,
    dated: &[Dated],
    cut: u64,
    stretches: &[Stretch],
) -> Result<Vec<Claim>, Memory>
    requires { AreOrdered stretches.now }
    ensures { IfOk result (λ claims. AreClaims dated.now cut stretches.now claims.items) }
{
    let mut painting = unpainted(alloc, stretches.len())?;
    let skips = painting.as_mut_slice();
    paint_young(skips, dated, cut, stretches);
    let mut claims = Vec::new(alloc);
    let mut i = dated.len();
    while i > 0 {
        i -= 1;
        let one = dated[i];
        if one.moment < cut {
            claim_span(skips, span_of(stretches, &one.name), i, &mut claims)?;
        }
    }
    Ok(claims)
}
