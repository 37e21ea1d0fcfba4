//! The last transaction at or before a moment.

ghost use Rattle.std.specs.Prelude.{◌≡◌, ◌↔◌, ℕ, ◌^◌, ◌<◌, ◌≤◌, IsTrue, IfSome};
ghost use Rattle.std.specs.List.{Contains};
ghost use Rattle.std.specs.Option.{IfNone, IsSomeAnd};
ghost use Rattle.replica_store.specs.declared.dated_names.Dated.{Dated};
ghost use Rattle.replica_store.specs.Chain.{IsListOrdered, names_of, moment_of};
ghost use Rattle.restore_plan.specs.Moment.{IsRetainedAt, IsLastAt};

use crate::listing::Listing;
use crate::reach::greatest_retained;
use crate::rising::{is_by, is_rising, last_of_rising};
use ls_base::Txid;
use replica_store::Dated;

/// The moment of the first name that ends with the transaction.
fn moment_of(dated: &[Dated], t: Txid) -> Option<u64>
    ensures { result ≡ moment_of dated.now t }
{
    for name in dated {
        if name.name.max == t {
            return Some(name.moment);
        }
    }
    None
}

/// Whether the transaction's moment is at or before this one.
fn is_early(dated: &[Dated], t: Txid, moment: u64) -> bool
    ensures { IsTrue result ↔ IsSomeAnd (moment_of dated.now t) (λ own. own ≤ moment) }
{
    is_by(moment_of(dated, t), moment)
}

/// The greatest transaction up to the bound with which a name at or before the moment ends. It is 0 where
/// there is none.
fn greatest_end(dated: &[Dated], moment: u64, bound: u64) -> u64
    ensures within { result ≤ bound }
    ensures fits { (name : Dated) → Contains dated.now name → name.name.max < 2 ^ 64 }
    ensures greatest { (name : Dated) → Contains dated.now name → name.moment ≤ moment → name.name.max ≤ bound
        → name.name.max ≤ result }
{
    let mut greatest = 0;
    for name in dated {
        let end = name.name.max.number();
        if name.moment <= moment && end <= bound && greatest < end {
            greatest = end;
        }
    }
    greatest
}

/// The last retained transaction at or before the moment, searched from the greatest end down.
fn last_of_any(dated: &[Dated], names: &Listing<'_>, moment: u64) -> Option<Txid>
    requires same { names.now ≡ names_of dated.now }
    requires in_order { IsListOrdered names.now }
    ensures found { IfSome result (λ t. IsLastAt dated.now moment t) }
    ensures none { IfNone result ((t : ℕ) → IsRetainedAt dated.now moment t → ⊥) }
{
    let mut bound = u64::MAX;
    loop {
        let t = Txid::new(greatest_end(dated, moment, bound))?;
        let greatest = greatest_retained(names, t.number());
        if greatest == t.number() && is_early(dated, t, moment) {
            return Some(t);
        }
        bound = greatest.min(t.number() - 1);
    }
}

/// The greatest retained transaction whose moment is at or before this one, in milliseconds since
/// 1970-01-01T00:00:00Z. Its moment is that of the first name that ends with it. `None` exactly where there is
/// none. The names stand in list order. Takes no memory. It is one pass where in each level the ends of the names
/// never fall, as in each replica that this program writes.
pub fn last_at(dated: &[Dated], moment: u64) -> Option<Txid>
    requires in_order { IsListOrdered (names_of dated.now) }
    ensures found { IfSome result (λ t. IsLastAt dated.now moment t) }
    ensures none { IfNone result ((t : ℕ) → IsRetainedAt dated.now moment t → ⊥) }
{
    let names = Listing::of_dated(dated);
    if is_rising(&names) {
        return last_of_rising(dated, moment);
    }
    last_of_any(dated, &names, moment)
}
