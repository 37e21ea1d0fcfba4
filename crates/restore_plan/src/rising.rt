//! The retained transactions in rising order.

ghost use Rattle.std.specs.Prelude.{◌≡◌, ◌↔◌, ◌-◌, ◌<◌, ◌≤◌, ◌⊎◌, ℕ, List, Some, IfSome, IsTrue};
ghost use Rattle.std.specs.List.{Contains};
ghost use Rattle.std.specs.Option.{IfNone, IsSomeAnd};
ghost use Rattle.replica_store.specs.declared.file_name.FileName.{FileName};
ghost use Rattle.replica_store.specs.Chain.{IsListOrdered, MayComeNext, names_of, moment_of};
ghost use Rattle.restore_plan.specs.Moment.{IsRetainedAt, IsLastAt};
ghost use Rattle.restore_plan.specs.Walk.{AreRising, AreWalks, IsEndOfNext, IsNoLater};

use crate::listing::Listing;
use crate::walk::Walk;
use ls_base::Txid;
use replica_store::Dated;

/// Whether in each level the ends of the names never fall.
pub fn is_rising(names: &Listing<'_>) -> bool
    requires in_order { IsListOrdered names.now }
    ensures { IsTrue result → AreRising names.now }
{
    for at in 1..names.len() {
        let (Some(before), Some(name)) = (names.get(at - 1), names.get(at)) else {
            return false;
        };
        if before.level == name.level && name.max.number() < before.max.number() {
            return false;
        }
    }
    true
}

/// The earlier of two transactions, of which either may be absent.
fn earlier(first: Option<Txid>, second: Option<Txid>) -> Option<Txid>
    ensures one { IfSome result (λ t. (first ≡ Some t) ⊎ (second ≡ Some t)) }
    ensures first { IfSome first (IsNoLater result) }
    ensures second { IfSome second (IsNoLater result) }
{
    match (first, second) {
        (Some(one), Some(other)) => Some(if one < other { one } else { other }),
        (Some(one), None) => Some(one),
        (None, other) => other,
    }
}

/// The least end beyond the transaction `after` of a name that may come next.
fn next_end(walks: &mut [Walk; 5], names: &Listing<'_>, after: u64) -> Option<Txid>
    requires in_order { IsListOrdered names.now }
    requires rising { AreRising names.now }
    requires walks { AreWalks names.now after walks.old }
    ensures walks { AreWalks names.now after walks.new }
    ensures end { IfSome result (IsEndOfNext names.now after) }
    ensures least { (name : FileName) → Contains names.now name → MayComeNext after name → IsNoLater result name.max }
{
    let mut least = None;
    for walk in walks.iter_mut() {
        let end = walk.next_end(names, after);
        least = earlier(least, end);
    }
    least
}

/// The moment of the first name that ends with the transaction.
fn moment_at(walks: &mut [Walk; 5], dated: &[Dated], names: &Listing<'_>, t: Txid) -> Option<u64>
    requires same { names.now ≡ names_of dated.now }
    requires in_order { IsListOrdered names.now }
    requires rising { AreRising names.now }
    requires walks { AreWalks names.now (t - 1) walks.old }
    ensures walks { AreWalks names.now (t - 1) walks.new }
    ensures moment { result ≡ moment_of dated.now t }
{
    for walk in walks.iter_mut() {
        if walk.finds(names, t) {
            return Some(dated[walk.at].moment);
        }
    }
    None
}

/// Whether there is a moment, and it is at or before the other.
pub fn is_by(own: Option<u64>, moment: u64) -> bool
    ensures { IsTrue result ↔ IsSomeAnd own (λ own. own ≤ moment) }
{
    own.is_some_and(|own| own <= moment)
}

/// A walk of each level.
fn all_walks() -> [Walk; 5]
    ensures { (names : List FileName) (after : ℕ) → AreWalks names after result }
{
    [
        Walk::new(0),
        Walk::new(1),
        Walk::new(2),
        Walk::new(3),
        Walk::new(9),
    ]
}

/// The last retained transaction whose moment is at or before this one, found in one pass.
pub fn last_of_rising(dated: &[Dated], moment: u64) -> Option<Txid>
    requires in_order { IsListOrdered (names_of dated.now) }
    requires rising { AreRising (names_of dated.now) }
    ensures found { IfSome result (λ t. IsLastAt dated.now moment t) }
    ensures none { IfNone result ((t : ℕ) → IsRetainedAt dated.now moment t → ⊥) }
{
    let names = Listing::of_dated(dated);
    let mut walks = all_walks();
    let mut reached = 0;
    let mut last = None;
    while let Some(t) = next_end(&mut walks, &names, reached) {
        let own = moment_at(&mut walks, dated, &names, t);
        if is_by(own, moment) {
            last = Some(t);
        }
        reached = t.number();
    }
    last
}
