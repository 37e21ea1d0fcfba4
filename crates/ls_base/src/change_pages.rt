//! The pages of a change, by number.

ghost use Rattle.std.specs.Prelude.{◌≡◌, ℕ, ◌<◌, ◌≤◌, length, slice_index, OnOk, OnErr, option_copied};
ghost use Rattle.std.specs.FinMap as map;
ghost use Rattle.std.specs.List.{slice_get};
ghost use Rattle.std.specs.List.Sorted.{IsStrictlyIncreasing};

use crate::memory::Memory;
use crate::page::Page;
use std::alloc::Global;
use std::collections::BTreeMap;
use std::marker::Model;

/// Pages by their number: at most one of each number.
#[derive(Debug, Drop)]
pub struct ChangePages {
    pages: BTreeMap<u32, Page>,
    // The numbers of the pages in rising order, so that they are found by their place.
    numbers: Vec<u32>,
}

impl Model for ChangePages {
    ghost use Rattle.std.specs.Prelude.{◌≡◌, ℕ, List};
    ghost use Rattle.std.specs.Ordering.{nat_cmp};
    ghost use Rattle.std.specs.FinMap as map;
    ghost use Rattle.std.specs.Coded.{coded_ℕ, coded_list};

    ghost Value = { map.FinMap nat_cmp (List ℕ) };

    ghost coded = { map.code coded_ℕ (coded_list coded_ℕ) };

    ghost view = { λ c. map.from_entries c.pages.entries };

    ghost invariant = { λ c. c.numbers.items ≡ map.keys (map.from_entries {R = nat_cmp} c.pages.entries) };
}

impl ChangePages {
    /// No pages. Takes no memory.
    pub fn new(alloc: Global) -> ChangePages
        ensures { result ≡ map.empty }
    {
        ChangePages {
            pages: BTreeMap::new(alloc),
            numbers: Vec::new(alloc),
        }
    }

    /// Puts the page under the number, in the place of one that is there. `Memory` for want of it, and
    /// the pages are then as they were.
    pub fn put(&mut self, number: u32, page: Page) -> Result<(), Memory>
        ensures ok { OnOk result (self.new ≡ map.insert self.old number page) }
        ensures err { OnErr result (self.new ≡ self.old) }
    {
        self.numbers.reserve(1)?;
        let at = rank(self.numbers.as_slice(), number);
        let old = self.pages.insert(number, page)?;
        if old.is_none() {
            self.numbers.insert(at, number)?;
        }
        Ok(())
    }

    /// The page of this number. `None` exactly where there is none.
    pub fn get(&self, number: u32) -> Option<&Page>
        ensures { option_copied result ≡ map.get self.now number }
    {
        self.pages.get(&number)
    }

    /// The number at this place, counted from 0, of the numbers in rising order. `None` exactly past
    /// the last one.
    pub fn number_at(&self, at: u64) -> Option<u32>
        ensures { result ≡ slice_get (map.keys self.now) at }
    {
        self.numbers.get(at as usize).copied()
    }
}

/// How many of the rising numbers are below this one.
fn rank(numbers: &[u32], number: u32) -> usize
    requires { IsStrictlyIncreasing numbers.now }
    ensures within { result ≤ length numbers.now }
    ensures below { (j : ℕ) → j < result → slice_index numbers.now j < number }
    ensures above { (j : ℕ) → result ≤ j → j < length numbers.now → number ≤ slice_index numbers.now j }
{
    numbers.partition_point(|other| *other < number)
}
