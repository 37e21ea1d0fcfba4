//! The steps of the chosen chain.

ghost use Rattle.std.specs.Prelude.{◌≡◌, ℕ, ◌<◌, ◌≤◌, IfSome, slice_index_or};
ghost use Rattle.std.specs.List.{All};
ghost use Rattle.std.specs.Option.{IfNone};
ghost use Rattle.replica_store.specs.declared.file_name.FileName.{FileName};
ghost use Rattle.replica_store.specs.Chain.{IsListOrdered};
ghost use Rattle.restore_plan.specs.ChosenChain.{MayLead, IsBestNext};
ghost use Rattle.restore_plan.specs.Progress.{stepped};
ghost use Rattle.restore_plan.specs.Run.{AreRuns, HasTakenIn, IsWithin, IsMatched};
ghost use Rattle.restore_plan.specs.declared.run.Run.{Run};

use crate::choice::better;
use crate::listing::Listing;
use crate::run::Run;
use replica_store::FileName;
use std::marker::Model;

/// A chain on the way to a transaction, by the best file at each step. Each level's names are taken in once.
#[derive(Drop)]
pub struct Sweep<'a> {
    names: &'a Listing<'a>,
    t: u64,
    after: u64,
    runs: [Run; 5],
}

impl<'a> Model for Sweep<'a> {
    ghost use Rattle.replica_store.specs.Chain.{IsListOrdered};
    ghost use Rattle.restore_plan.specs.Progress.{Progress};
    ghost use Rattle.restore_plan.specs.Run.{AreRuns};

    ghost Value = { Progress };

    ghost view = { λ sweep. record { names = sweep.names.now; t = sweep.t; after = sweep.after } };

    ghost invariant = { λ sweep.
        IsListOrdered sweep.names.now × AreRuns sweep.names.now sweep.t sweep.after sweep.runs };
}

impl<'a> Sweep<'a> {
    /// The chain of no files, on the way to transaction t.
    pub fn new(names: &'a Listing<'a>, t: u64) -> Sweep<'a>
        requires in_order { IsListOrdered names.now }
        ensures { result ≡ record { names = names.now; t = t; after = 0 } }
    {
        Sweep {
            names,
            t,
            after: 0,
            runs: [
                Run::new(0),
                Run::new(1),
                Run::new(2),
                Run::new(3),
                Run::new(9),
            ],
        }
    }

    /// The transaction that the chain leads to.
    pub fn after(&self) -> u64
        ensures { result ≡ self.now.after }
    {
        self.after
    }

    /// The best file that may come next, with which the chain goes on. `None` exactly where none may.
    pub fn step(&mut self) -> Option<FileName>
        ensures best { IfSome result (λ name. IsBestNext self.old.names self.old.t self.old.after name) }
        ensures end { IfNone result ((name : FileName) → MayLead self.old.names self.old.t self.old.after name → ⊥) }
        ensures goes_on { self.new ≡ stepped self.old result }
    {
        let name = advance_all(&mut self.runs, self.names, self.t, self.after)?;
        if name.max.number() <= self.after {
            return None;
        }
        self.after = name.max.number();
        Some(name)
    }
}

/// Takes in the names of each level that begin at most one past a transaction, and answers the best of them.
fn advance_all(runs: &mut [Run; 5], names: &Listing<'_>, t: u64, after: u64) -> Option<FileName>
    requires in_order { IsListOrdered names.now }
    requires runs { AreRuns names.now t after runs.old }
    ensures runs { AreRuns names.now t after runs.new }
    ensures within { IfSome result (IsWithin names.now t after) }
    ensures best { (name : FileName) → IsWithin names.now t after name → IsMatched result name }
{
    let mut best = None;
    for run in runs.iter_mut() {
        run.advance(names, t, after);
        best = better(best, run.best);
    }
    best
}
