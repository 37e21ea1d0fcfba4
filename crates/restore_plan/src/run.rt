//! The names of one level.

ghost use Rattle.std.specs.Prelude.{◌≡◌, ◌+◌, ◌<◌, ◌↔◌, ◌⊎◌, ℕ, List, IsTrue};
ghost use Rattle.replica_store.specs.declared.file_name.FileName.{FileName};
ghost use Rattle.replica_store.specs.Chain.{IsListOrdered};
ghost use Rattle.restore_plan.specs.Run.{IsRun, HasTakenIn};

use crate::choice::better;
use crate::listing::Listing;
use replica_store::FileName;

/// The names of one level in list order, taken in from the front, and the best of those that were.
#[derive(Clone, Copy)]
pub struct Run {
    pub level: u8,
    pub at: usize,
    pub best: Option<FileName>,
}

impl Run {
    /// The names of this level, of which none was taken in.
    pub fn new(level: u8) -> Run
        ensures level { result.level ≡ level }
        ensures run { (names : List FileName) (t after : ℕ) → IsRun names t after result }
    {
        Run {
            level,
            at: 0,
            best: None,
        }
    }

    /// Takes in each name that begins at most one past the transaction `after`. One that ends beyond t is passed
    /// over.
    pub fn advance(&mut self, names: &Listing<'_>, t: u64, after: u64)
        requires in_order { IsListOrdered names.now }
        requires run { IsRun names.now t after self.old }
        ensures level { self.new.level ≡ self.old.level }
        ensures run { IsRun names.now t after self.new }
        ensures taken_in { HasTakenIn names.now after self.new }
    {
        while self.at < names.len() {
            let Some(name) = names.get(self.at) else {
                return;
            };
            if self.is_before(&name, after) {
                return;
            }
            if name.level == self.level && name.max.number() <= t {
                self.best = better(self.best, Some(name));
            }
            self.at += 1;
        }
    }

    /// Whether the name stands behind those that begin at most one past the transaction `after`.
    fn is_before(&self, name: &FileName, after: u64) -> bool
        ensures { IsTrue result ↔ ((self.now.level < name.now.level)
            ⊎ ((name.now.level ≡ self.now.level) × (after + 1 < name.now.min))) }
    {
        if name.level != self.level {
            return name.level > self.level;
        }
        name.min.number() - 1 > after
    }
}
