//! The numbers with which cursors wait.

ghost use Rattle.std.specs.Prelude.{◌≡◌, ◌↔◌, ◌+◌, ℕ, ◌<◌, ◌≤◌, None, Some, IfOk, IfSome, IsTrue, length, slice_get};
ghost use Rattle.std.specs.Prelude.{slice_set};
ghost use Rattle.std.specs.Option.{IfNone};
ghost use Rattle.std.specs.BinaryHeap.{IsHeap, heap_items, heap_len, heap_capacity};
ghost use Rattle.page_cursors.specs.Queue.{entry_order, Queue, HoldsEach, IsEmptyQueue, IsLeast, NoneWaits, Waits};
ghost use Rattle.page_cursors.specs.Queue.{number_above};

use std::alloc::{AllocError, Global};
use std::cmp::Reverse;
use std::collections::BinaryHeap;
use std::marker::Model;

/// Cursors by their places, from 0 on, each of which may wait with a number. The least number comes first, and of
/// equal numbers that of the earliest cursor.
#[derive(Drop)]
pub struct Waiting {
    numbers: Vec<Option<u32>>,
    heap: BinaryHeap<Reverse<(u32, usize)>>,
}

impl Model for Waiting {
    ghost use Rattle.std.specs.Prelude.{◌-◌};
    ghost use Rattle.std.specs.BinaryHeap.{IsHeap, heap_items, heap_len, heap_capacity};
    ghost use Rattle.page_cursors.specs.Queue.{entry_order, Queue, HoldsEach};

    ghost Value = { Queue };

    ghost view = { λ waiting. record {
      numbers = waiting.numbers.items;
      room = heap_capacity waiting.heap - heap_len waiting.heap;
    } };

    ghost invariant = { λ waiting. IsHeap entry_order (heap_items waiting.heap)
        × HoldsEach (heap_items waiting.heap) waiting.numbers.items };
}

impl Waiting {
    /// So many cursors, of which none waits, with room for one number each.
    pub fn new(alloc: Global, count: usize) -> Result<Waiting, AllocError>
        ensures { IfOk result (IsEmptyQueue count) }
    {
        let numbers = vec![in alloc; None; count]?;
        let heap = BinaryHeap::with_capacity(alloc, count)?;
        Ok(Waiting { numbers, heap })
    }

    /// The cursor at the place waits with the number. Takes no memory.
    pub fn put(&mut self, place: usize, number: u32)
        requires within { place < length self.old.numbers }
        requires room { 0 < self.old.room }
        ensures numbers { self.new.numbers ≡ slice_set self.old.numbers place (Some number) }
        ensures room { self.old.room ≤ self.new.room + 1 }
    {
        self.numbers[place] = Some(number);
        self.heap.push(Reverse((number, place))).unwrap();
    }

    /// The cursor at the place, which doesn't wait, waits with the next number where that is above the last. Takes no
    /// memory.
    pub fn put_above(&mut self, place: usize, last: u32, next: Option<u32>)
        requires waits_not { slice_get self.old.numbers place ≡ Some None }
        requires room { 0 < self.old.room }
        ensures numbers { self.new.numbers ≡ slice_set self.old.numbers place (number_above last next) }
        ensures room { self.old.room ≤ self.new.room + 1 }
    {
        if let Some(next) = next {
            if last < next {
                self.put(place, next);
            }
        }
    }

    /// The least number that a cursor waits with, and the place of the earliest that does; it doesn't wait any
    /// more. `None` exactly where none waits. There is room for one number more. Takes no memory.
    pub fn pop(&mut self) -> Option<(u32, usize)>
        ensures least { IfSome result (IsLeast self.old.numbers) }
        ensures numbers { IfSome result (λ next. self.new.numbers ≡ slice_set self.old.numbers next.1 None) }
        ensures room { IfSome result (λ next. self.old.room + 1 ≤ self.new.room) }
        ensures none { IfNone result (NoneWaits self.old.numbers) }
        ensures unchanged { IfNone result (self.new.numbers ≡ self.old.numbers) }
    {
        let (number, place) = pop_waiting(&mut self.heap, &self.numbers)?;
        self.numbers[place] = None;
        Some((number, place))
    }

    /// The least number that a cursor waits with; `None` exactly where none waits. Takes no memory.
    pub fn least(&mut self) -> Option<u32>
        ensures some { IfSome result (λ number. (place : ℕ) × IsLeast self.old.numbers (number, place)) }
        ensures none { IfNone result (NoneWaits self.old.numbers) }
        ensures unchanged { self.new.numbers ≡ self.old.numbers }
    {
        let (number, place) = self.pop()?;
        self.put(place, number);
        Some(number)
    }

    /// The place of the earliest cursor that waits with this number, the least; it doesn't wait any more. `None`
    /// exactly where none waits with it. There is room for one number more. Takes no memory.
    pub fn pop_with(&mut self, number: u32) -> Option<usize>
        requires least { (place other : ℕ) → Waits self.old.numbers place other → number ≤ other }
        ensures waits { IfSome result (λ place. Waits self.old.numbers place number) }
        ensures earliest { IfSome result (λ place. (other : ℕ) → Waits self.old.numbers other number → place ≤ other) }
        ensures numbers { IfSome result (λ place. self.new.numbers ≡ slice_set self.old.numbers place None) }
        ensures room { IfSome result (λ place. self.old.room + 1 ≤ self.new.room) }
        ensures none { IfNone result ((place : ℕ) → Waits self.old.numbers place number → ⊥) }
        ensures unchanged { IfNone result (self.new.numbers ≡ self.old.numbers) }
    {
        let (least, place) = self.pop()?;
        if least != number {
            self.put(place, least);
            return None;
        }
        Some(place)
    }
}

/// Takes the least entry that a cursor waits with from the heap. The entries before it are of cursors that wait with
/// another number or none.
fn pop_waiting(
    heap: &mut BinaryHeap<Reverse<(u32, usize)>>,
    numbers: &[Option<u32>],
) -> Option<(u32, usize)>
    requires order { IsHeap entry_order (heap_items heap.old) }
    requires holds { HoldsEach (heap_items heap.old) numbers.now }
    ensures order { IsHeap entry_order (heap_items heap.new) }
    ensures least { IfSome result (IsLeast numbers.now) }
    ensures holds { IfSome result (λ next. HoldsEach (heap_items heap.new) (slice_set numbers.now next.1 None)) }
    ensures still { IfNone result (HoldsEach (heap_items heap.new) numbers.now) }
    ensures none { IfNone result (NoneWaits numbers.now) }
    ensures capacity { heap_capacity heap.new ≡ heap_capacity heap.old }
    ensures room { IfSome result (λ next. heap_len heap.new + 1 ≤ heap_len heap.old) }
    ensures no_more { heap_len heap.new ≤ heap_len heap.old }
{
    while let Some(Reverse((number, place))) = heap.pop() {
        if waits(numbers, place, number) {
            return Some((number, place));
        }
    }
    None
}

/// Whether the cursor at the place waits with the number.
fn waits(numbers: &[Option<u32>], place: usize, number: u32) -> bool
    ensures { IsTrue result ↔ Waits numbers.now place number }
{
    match numbers.get(place) {
        Some(Some(own)) => *own == number,
        _ => false,
    }
}
