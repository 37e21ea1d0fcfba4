//! A place among the names of one level.

ghost use Rattle.std.specs.Prelude.{◌≡◌, ◌≢◌, ◌-◌, ◌<◌, ◌≤◌, ℕ, List, IfSome, IsTrue, IsFalse};
ghost use Rattle.std.specs.List.{Contains};
ghost use Rattle.std.specs.Option.{IfNone};
ghost use Rattle.replica_store.specs.declared.file_name.FileName.{FileName};
ghost use Rattle.replica_store.specs.Chain.{IsListOrdered, MayComeNext};
ghost use Rattle.restore_plan.specs.Walk.{AreRising, IsWalk, StandsAt, StandsAtFirst, IsEndOfNext, IsNoLater};

use crate::listing::Listing;
use ls_base::Txid;
use replica_store::FileName;

/// A place among the names of one level. It goes on by their ends, which never fall in one level.
#[derive(Clone, Copy)]
pub struct Walk {
    pub level: u8,
    pub at: usize,
}

impl Walk {
    /// Before the first name of this level.
    pub fn new(level: u8) -> Walk
        ensures level { result.level ≡ level }
        ensures walk { (names : List FileName) (after : ℕ) → IsWalk names after result }
    {
        Walk { level, at: 0 }
    }

    /// Goes on to the first name of the level that ends beyond the transaction `after`, and answers it.
    fn first_beyond(&mut self, names: &Listing<'_>, after: u64) -> Option<FileName>
        requires in_order { IsListOrdered names.now }
        requires walk { IsWalk names.now after self.old }
        ensures level { self.new.level ≡ self.old.level }
        ensures walk { IsWalk names.now after self.new }
        ensures found { IfSome result (StandsAt names.now after self.new) }
        ensures none { IfNone result ((name : FileName) → Contains names.now name → name.level ≡ self.old.level
            → name.max ≤ after) }
    {
        while self.at < names.len() {
            let name = names.get(self.at)?;
            if name.level > self.level {
                return None;
            }
            if name.level == self.level && name.max.number() > after {
                return Some(name);
            }
            self.at += 1;
        }
        None
    }

    /// The least end beyond the transaction `after` of a name of the level that may come next.
    pub fn next_end(&mut self, names: &Listing<'_>, after: u64) -> Option<Txid>
        requires in_order { IsListOrdered names.now }
        requires rising { AreRising names.now }
        requires walk { IsWalk names.now after self.old }
        ensures level { self.new.level ≡ self.old.level }
        ensures walk { IsWalk names.now after self.new }
        ensures end { IfSome result (IsEndOfNext names.now after) }
        ensures least { (name : FileName) → Contains names.now name → name.level ≡ self.old.level
            → MayComeNext after name → IsNoLater result name.max }
    {
        let name = self.first_beyond(names, after)?;
        if name.min.number() - 1 > after {
            return None;
        }
        Some(name.max)
    }

    /// Whether a name of the level ends with the transaction. Goes on to the first of these.
    pub fn finds(&mut self, names: &Listing<'_>, t: Txid) -> bool
        requires in_order { IsListOrdered names.now }
        requires rising { AreRising names.now }
        requires walk { IsWalk names.now (t - 1) self.old }
        ensures level { self.new.level ≡ self.old.level }
        ensures walk { IsWalk names.now (t - 1) self.new }
        ensures found { IsTrue result → StandsAtFirst names.now t self.new }
        ensures none { IsFalse result → (name : FileName) → Contains names.now name → name.level ≡ self.old.level
            → name.max ≢ t }
    {
        let Some(name) = self.first_beyond(names, t.number() - 1) else {
            return false;
        };
        name.max.number() == t.number()
    }
}
