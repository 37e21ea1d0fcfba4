//! Places in a row that are painted one after the other. The next one that isn't painted is found by skips over
//! those that are, which grow as they are used.

ghost use Rattle.std.specs.Prelude.{◌≡◌, ◌↔◌, ℕ, ◌+◌, ◌<◌, ◌≤◌, IsTrue, IfOk, MatchOption, length};
ghost use Rattle.retention.specs.Painting.{skip_from, IsPainted, AreSkips, AreAsPainted};
ghost use Rattle.retention.specs.Painting.{IsFirstUnpainted, ArePainted, IsTaken, AreTaken};

use crate::stretch::Span;
use ls_base::Memory;
use std::alloc::Global;

/// As many places, none of them painted.
pub fn unpainted(alloc: Global, count: usize) -> Result<Vec<usize>, Memory>
    ensures count { IfOk result (λ skips. length skips.items ≡ count) }
    ensures skips { IfOk result (λ skips. AreSkips skips.items) }
    ensures none { IfOk result (λ skips. (k : ℕ) → IsPainted skips.items k → ⊥) }
{
    let mut skips = Vec::new(alloc);
    for k in 0..count {
        skips.push(k)?;
    }
    Ok(skips)
}

/// Where one may skip to from a place.
fn skip_from(skips: &[usize], k: usize) -> usize
    ensures { result ≡ skip_from skips.now k }
{
    if k < skips.len() { skips[k] } else { k }
}

/// Whether the place is painted.
pub fn is_painted(skips: &[usize], k: usize) -> bool
    ensures { IsTrue result ↔ IsPainted skips.now k }
{
    k < skip_from(skips, k)
}

/// The first place from this one on that isn't painted. The skips on the way double.
fn first_unpainted(skips: &mut [usize], from: usize) -> usize
    requires { AreSkips skips.old }
    ensures skips { AreSkips skips.new }
    ensures same { AreAsPainted skips.old skips.new }
    ensures first { IsFirstUnpainted skips.old from result }
{
    let mut at = from;
    while at < skips.len() && skips[at] > at {
        let next = skip_from(skips, skips[at]);
        skips[at] = next;
        at = next;
    }
    at
}

/// Paints the first place from one to another that isn't painted, and answers it.
pub fn take(skips: &mut [usize], from: usize, to: usize) -> Option<usize>
    requires skips { AreSkips skips.old }
    requires within { to ≤ length skips.old }
    ensures skips { AreSkips skips.new }
    ensures taken { MatchOption result (AreTaken skips.old skips.new from to) (IsTaken skips.old skips.new from to) }
{
    let at = first_unpainted(skips, from);
    if at >= to {
        return None;
    }
    skips[at] = at + 1;
    Some(at)
}

/// Paints each place of the span.
pub fn paint(skips: &mut [usize], span: Span)
    requires skips { AreSkips skips.old }
    requires within { span.to ≤ length skips.old }
    ensures skips { AreSkips skips.new }
    ensures painted { ArePainted span.from span.to skips.old skips.new }
{
    let mut from = span.from;
    while let Some(k) = take(skips, from, span.to) {
        from = k + 1;
    }
}
