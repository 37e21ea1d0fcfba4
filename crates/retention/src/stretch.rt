//! The stretches between neighbouring retained transactions.

ghost use Rattle.std.specs.Prelude.{◌≡◌, length, IfOk};
ghost use Rattle.retention.specs.declared.stretch.Stretch.{Stretch};
ghost use Rattle.retention.specs.Stretch.{AreBetween, AreOrdered, AreSpanned};

use ls_base::{Memory, Txid};
use replica_store::FileName;
use std::alloc::Global;

/// From one retained transaction, or from 0, to the next, on the way to the least protected one from there on.
#[derive(Clone, Copy)]
pub struct Stretch {
    pub before: u64,
    pub end: u64,
    pub goal: u64,
}

/// The places of some stretches in a row, from the first to the one behind the last.
#[derive(Clone, Copy)]
pub struct Span {
    pub from: usize,
    pub to: usize,
}

/// The stretches to the transactions, which lead on to their goals.
pub fn stretches(alloc: Global, ts: &[Txid], goals: &[Txid]) -> Result<Vec<Stretch>, Memory>
    requires { length goals.now ≡ length ts.now }
    ensures { IfOk result (λ stretches. AreBetween ts.now goals.now stretches.items) }
{
    let mut stretches = Vec::new(alloc);
    let mut before = 0;
    for k in 0..ts.len() {
        let end = ts[k].number();
        let goal = goals[k].number();
        stretches.push(Stretch { before, end, goal })?;
        before = end;
    }
    Ok(stretches)
}

/// The stretches that the file spans.
pub fn span_of(stretches: &[Stretch], name: &FileName) -> Span
    requires { AreOrdered stretches.now }
    ensures { AreSpanned name.now stretches.now result.from result.to }
{
    let before = name.min.number() - 1;
    let last = name.max.number();
    let begins = stretches.partition_point(|stretch| stretch.before < before);
    let within = stretches.partition_point(|stretch| stretch.goal < last);
    let to = stretches.partition_point(|stretch| stretch.end <= last);
    Span {
        from: begins.max(within),
        to,
    }
}
