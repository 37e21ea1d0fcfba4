//! A rising list of page numbers.

ghost use Rattle.std.specs.Prelude.{◌≡◌, ℕ, ◌<◌, [], ◌∷◌, ◌++◌, length, IsTrue, ◌↔◌, OnOk, OnErr};
ghost use Rattle.std.specs.List.{slice_get};
ghost use Rattle.std.specs.List.Sorted.{IsStrictlyIncreasing};

use crate::memory::Memory;
use std::alloc::Global;
use std::marker::Model;

/// Page numbers, each above the one before it.
#[derive(Debug, Drop)]
pub struct PageList {
    numbers: Vec<u32>,
}

impl Model for PageList {
    ghost use Rattle.std.specs.Prelude.{ℕ, List};
    ghost use Rattle.std.specs.List.Sorted.{IsStrictlyIncreasing};

    ghost Value = { List ℕ };

    ghost view = { λ list. list.numbers.items };

    ghost invariant = { λ list. IsStrictlyIncreasing list.numbers.items };
}

impl PageList {
    /// No numbers. Takes no memory.
    pub fn new(alloc: Global) -> PageList
        ensures { result ≡ [] }
    {
        PageList {
            numbers: Vec::new(alloc),
        }
    }

    /// Puts the number last; it is above each that is there. `Memory` for want of it, and the list is
    /// then as it was.
    pub fn push(&mut self, number: u32) -> Result<(), Memory>
        requires { (k : ℕ) → (last : ℕ) → slice_get self.old k ≡ Some last → last < number }
        ensures ok { OnOk result (self.new ≡ self.old ++ number ∷ []) }
        ensures err { OnErr result (self.new ≡ self.old) }
    {
        self.numbers.push(number)?;
        Ok(())
    }

    /// How many numbers there are.
    pub fn len(&self) -> u64
        ensures value { result ≡ length self.now }
        ensures rising { IsStrictlyIncreasing self.now }
    {
        self.numbers.len() as u64
    }

    /// Whether there is no number.
    pub fn is_empty(&self) -> bool
        ensures { IsTrue result ↔ (self.now ≡ []) }
    {
        self.numbers.is_empty()
    }

    /// The number at this place, counted from 0. `None` exactly where `at` isn't below `len`.
    pub fn get(&self, at: u64) -> Option<u32>
        ensures { result ≡ slice_get self.now at }
    {
        self.numbers.get(at as usize).copied()
    }
}
