//! Which names are kept, by the transactions that are retained.

ghost use Rattle.std.specs.Prelude.{◌≡◌, length, IfOk};
ghost use Rattle.replica_store.specs.Chain.{names_of};
ghost use Rattle.retention.specs.Protected.{KeepsProtected};
ghost use Rattle.retention.specs.Retained.{AreRetained, Rises};
ghost use Rattle.retention.specs.Stretch.{AreOrdered, AreStretches};
ghost use Rattle.retention.specs.Walk.{IsWalk, standing, dropped};
ghost use Rattle.retention.specs.Drops.{AreMissing, IsLeast};

use crate::claim::claims;
use crate::kept::kept_names;
use crate::retained::place_of;
use crate::stretch::{Stretch, stretches};
use crate::young::{goals, young};
use ls_base::{Memory, Txid};
use replica_store::{Dated, FileName};
use std::alloc::Global;

/// The stretches between the retained transactions of the names, each with the least protected one from it on.
fn stretches_of(
    alloc: Global,
    dated: &[Dated],
    cut: u64,
    ts: &[Txid],
) -> Result<Vec<Stretch>, Memory>
    requires { AreRetained (names_of dated.now) ts.now }
    ensures are { IfOk result (λ stretches. AreStretches dated.now cut stretches.items) }
    ensures ordered { IfOk result (λ stretches. AreOrdered stretches.items) }
{
    let young = young(alloc, dated, ts, cut)?;
    let goals = goals(alloc, ts, young.as_slice())?;
    stretches(alloc, ts, goals.as_slice())
}

/// Of each name whether it is kept. The transactions are those that are retained in the names.
pub fn decide(alloc: Global, dated: &[Dated], cut: u64, ts: &[Txid]) -> Result<Vec<bool>, Memory>
    requires { AreRetained (names_of dated.now) ts.now }
    ensures walk { IfOk result (λ kept. IsWalk dated.now cut kept.items) }
    ensures protected { IfOk result (λ kept. KeepsProtected dated.now cut (standing kept.items dated.now)) }
    ensures least { IfOk result (λ kept. IsLeast dated.now cut kept.items) }
{
    let between = stretches_of(alloc, dated, cut, ts)?;
    let stretches = between.as_slice();
    let claims = claims(alloc, dated, cut, stretches)?;
    kept_names(alloc, dated, cut, stretches, claims.as_slice())
}

/// The names that are kept.
#[tactic(auto, using(crate::proofs::DropLemmas::left_steps))]
pub fn left(alloc: Global, dated: &[Dated], kept: &[bool]) -> Result<Vec<FileName>, Memory>
    requires { length kept.now ≡ length dated.now }
    ensures { IfOk result (λ names. names.items ≡ standing kept.now dated.now) }
{
    let mut names = Vec::new(alloc);
    for i in 0..dated.len() {
        let one = dated[i];
        if kept[i] {
            names.push(one.name)?;
        }
    }
    Ok(names)
}

/// The names that aren't kept.
#[tactic(auto, using(crate::proofs::DropLemmas::gone_steps))]
pub fn gone(alloc: Global, dated: &[Dated], kept: &[bool]) -> Result<Vec<FileName>, Memory>
    requires { length kept.now ≡ length dated.now }
    ensures { IfOk result (λ names. names.items ≡ dropped kept.now dated.now) }
{
    let mut names = Vec::new(alloc);
    for i in 0..dated.len() {
        let one = dated[i];
        if !kept[i] {
            names.push(one.name)?;
        }
    }
    Ok(names)
}

/// The transactions of the first list that aren't in the second. Both rise.
pub fn missing(alloc: Global, before: &[Txid], after: &[Txid]) -> Result<Vec<Txid>, Memory>
    requires before { Rises before.now }
    requires after { Rises after.now }
    ensures { IfOk result (λ lost. AreMissing before.now after.now lost.items) }
{
    let mut lost = Vec::new(alloc);
    for t in before {
        if place_of(after, *t).is_none() {
            lost.push(*t)?;
        }
    }
    Ok(lost)
}
