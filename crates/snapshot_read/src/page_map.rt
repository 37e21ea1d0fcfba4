//! Where in a log the pages stand.

ghost use Rattle.std.specs.Prelude.{◌≡◌, ℕ, ◌+◌, ◌<◌, ◌≤◌, ◌↔◌, nat_eq, IsTrue, IfOk, IsOk, OnOk, OnErr};
ghost use Rattle.std.specs.FinMap as map;
ghost use Rattle.std.specs.HashMap.{keys, IsUnique};
ghost use Rattle.snapshot_read.specs.PageOffsets.{IsTakenIn};

use ls_base::Memory;
use std::alloc::{AllocError, Global};
use std::collections::HashMap;
use std::marker::Model;

/// Offsets of pages in a log by the pages' numbers: at most one of each number. Contracts see besides how
/// many further numbers find room without taking memory, `spare`.
#[derive(Debug, Drop)]
pub struct PageMap {
    offsets: HashMap<u32, u64>,
}

impl Model for PageMap {
    ghost use Rattle.std.specs.FinMap.{from_entries};
    ghost use Rattle.std.specs.HashMap.{spare};
    ghost use Rattle.snapshot_read.specs.PageOffsets.{PageOffsets, page_offsets_code};

    ghost Value = { PageOffsets };

    ghost coded = { page_offsets_code };

    ghost view = { λ m. record { offsets = from_entries m.offsets.entries; spare = spare m.offsets } };
}

/// The keys in the order of iteration.
fn unsorted_keys(offsets: &HashMap<u32, u64>, alloc: Global) -> Result<Vec<u32>, AllocError>
    ensures value { IfOk result (λ numbers. numbers.items ≡ keys offsets.now) }
    ensures unique { IsUnique nat_eq offsets.now }
{
    offsets.keys().copied().collect(alloc)
}

impl PageMap {
    /// No offsets. Takes no memory.
    pub fn new(alloc: Global) -> PageMap
        ensures { result.offsets ≡ map.empty }
    {
        PageMap {
            offsets: HashMap::new(alloc),
        }
    }

    /// Puts the offset under the number, in the place of one that is there. `Memory` for want of it, and
    /// the offsets are then as they were.
    pub fn put(&mut self, number: u32, at: u64) -> Result<(), Memory>
        ensures ok { OnOk result (self.new.offsets ≡ map.insert self.old.offsets number at) }
        ensures err { OnErr result (self.new.offsets ≡ self.old.offsets) }
        ensures succeeds { 0 < self.old.spare → IsOk result }
        ensures spare { self.old.spare ≤ self.new.spare + 1 }
    {
        self.offsets.insert(number, at)?;
        Ok(())
    }

    /// The offset under this number. `None` exactly where there is none.
    pub fn get(&self, number: u32) -> Option<u64>
        ensures { result ≡ map.get self.now.offsets number }
    {
        self.offsets.get(&number).copied()
    }

    /// Whether there is an offset under this number.
    pub fn has(&self, number: u32) -> bool
        ensures { result ≡ map.contains_key self.now.offsets number }
    {
        self.offsets.contains_key(&number)
    }

    /// How many numbers have an offset.
    pub fn len(&self) -> u64
        ensures { result ≡ map.len self.now.offsets }
    {
        self.offsets.len() as u64
    }

    /// Whether no number has an offset.
    pub fn is_empty(&self) -> bool
        ensures { IsTrue result ↔ (self.now.offsets ≡ map.empty) }
    {
        self.offsets.is_empty()
    }

    /// The numbers that have an offset, in rising order. `Memory` for want of it.
    pub fn numbers(&self, alloc: Global) -> Result<Vec<u32>, Memory>
        ensures { IfOk result (λ numbers. numbers.items ≡ map.keys self.now.offsets) }
    {
        let mut numbers = unsorted_keys(&self.offsets, alloc)?;
        numbers.sort_unstable();
        Ok(numbers)
    }

    /// Takes all offsets out. The room stays.
    pub fn clear(&mut self)
        ensures empty { self.new.offsets ≡ map.empty }
        ensures spare { self.old.spare ≤ self.new.spare }
    {
        self.offsets.clear();
    }

    /// Makes room for so many further numbers. `Memory` for want of it; the offsets stay as they were.
    pub fn reserve(&mut self, more: u64) -> Result<(), Memory>
        ensures offsets { self.new.offsets ≡ self.old.offsets }
        ensures room { OnOk result (more ≤ self.new.spare) }
        ensures spare { self.old.spare ≤ self.new.spare }
    {
        self.offsets.reserve(more as usize)?;
        Ok(())
    }

    /// Puts the offsets of a newer map in, each in the place of one under the same number, and leaves the
    /// newer map empty. Takes no memory, since there is room for them.
    pub fn take_in(&mut self, newer: &mut PageMap)
        requires room { map.len newer.old.offsets ≤ self.old.spare }
        ensures taken { IsTakenIn self.old.offsets newer.old.offsets self.new.offsets }
        ensures empty { newer.new.offsets ≡ map.empty }
        ensures spare { newer.old.spare ≤ newer.new.spare }
        ensures room_left { self.old.spare ≤ self.new.spare + map.len newer.old.offsets }
    {
        for (number, at) in &newer.offsets {
            let put: Result<_, _> = self.offsets.insert(*number, *at);
            put.unwrap();
        }
        newer.offsets.clear();
    }
}
