//! What states the database had.

ghost use Rattle.std.specs.Prelude.{◌≡◌, ℕ, ◌-◌, true, false, List, [], ◌∷◌, ◌++◌, length, take, IfOk, OnOk};
ghost use Rattle.std.specs.Prelude.{OnErr};
ghost use Rattle.std.specs.Prelude.{option_copied};
ghost use Rattle.std.specs.List.{slice_get};
ghost use Rattle.ls_base.specs.History.{state_of};
ghost use Rattle.sim_writer.specs.Stopping.{HasSomeTwin, HaveNoTwin};
ghost use Rattle.sim_writer.specs.Twins.{HasTwin, HasNoTwin};

use ls_base::{Entry, Memory, Page, Pages};
use std::alloc::Global;
use std::marker::Model;

/// The states that a database had, each with its place, in the order in which they came.
#[derive(Debug, Drop)]
pub struct History {
    entries: Vec<Entry>,
}

impl Model for History {
    ghost use Rattle.std.specs.Prelude.{List};
    ghost use Rattle.ls_base.specs.declared.entry.Entry.{Entry};

    ghost Value = { List Entry };

    ghost view = { λ h. h.entries.items };
}

impl History {
    /// No entries. Takes no memory.
    pub(crate) fn new(alloc: Global) -> History
        ensures { result ≡ [] }
    {
        History {
            entries: Vec::new(alloc),
        }
    }

    /// Puts the entry last. `Memory` for want of it, and the history is then as it was.
    pub(crate) fn push(&mut self, entry: Entry) -> Result<(), Memory>
        ensures ok { OnOk result (self.new ≡ self.old ++ entry ∷ []) }
        ensures err { OnErr result (self.new ≡ self.old) }
    {
        self.entries.push(entry)?;
        Ok(())
    }

    /// Takes the last entry away.
    pub(crate) fn pop(&mut self)
        ensures { self.new ≡ take (length self.old - 1) self.old }
    {
        self.entries.pop();
    }

    /// Puts the entries last. `Memory` for want of it, and the history is then as it was.
    pub(crate) fn append(&mut self, more: History) -> Result<(), Memory>
        ensures ok { OnOk result (self.new ≡ self.old ++ more) }
        ensures err { OnErr result (self.new ≡ self.old) }
    {
        let mut more = more;
        self.entries.append(&mut more.entries)?;
        Ok(())
    }

    /// How many entries there are.
    pub fn len(&self) -> usize
        ensures { result ≡ length self.now }
    {
        self.entries.len()
    }

    /// The entry at this place, counted from 0. `None` exactly where `at` isn't below `len`.
    pub fn get(&self, at: usize) -> Option<&Entry>
        ensures { option_copied result ≡ slice_get self.now at }
    {
        self.entries.get(at)
    }

    /// Whether an entry has the place of this one, but another state.
    pub(crate) fn has_twin(&self, entry: &Entry) -> bool
        ensures some { result ≡ true → HasTwin self.now entry.now }
        ensures none { result ≡ false → HasNoTwin self.now entry.now }
    {
        for at in 0..self.len() {
            let Some(other) = self.get(at) else {
                unreachable!()
            };
            if is_twin(other, entry) {
                return true;
            }
        }
        false
    }

    /// Whether one of the entries has the place of an entry of the history, but another state.
    pub(crate) fn have_twins(&self, more: &History) -> bool
        ensures some { result ≡ true → HasSomeTwin self.now more.now }
        ensures none { result ≡ false → HaveNoTwin self.now more.now }
    {
        for at in 0..more.len() {
            let Some(entry) = more.get(at) else {
                unreachable!()
            };
            if self.has_twin(entry) {
                return true;
            }
        }
        false
    }
}

/// A copy of the entry. `Memory` for want of it.
pub(crate) fn copied_entry(alloc: Global, entry: &Entry) -> Result<Entry, Memory>
    ensures { IfOk result (λ copy. copy ≡ entry.now) }
{
    let mut pages = Pages::new(alloc);
    for at in 0..entry.pages.len() {
        let Some(page) = entry.pages.get(at) else {
            unreachable!()
        };
        pages.push(Page::copied(alloc, page.bytes())?)?;
    }
    Ok(Entry {
        size: entry.size,
        place: entry.place,
        pages,
    })
}

/// Whether two entries of one place have two states.
fn is_twin(a: &Entry, b: &Entry) -> bool
    ensures some { result ≡ true → (a.now.place ≡ b.now.place) × (state_of a.now ≡ state_of b.now → ⊥) }
    ensures none { result ≡ false → a.now.place ≡ b.now.place → state_of a.now ≡ state_of b.now }
{
    a.place == b.place && !is_same_state(a, b)
}

/// Whether the states of two entries are one.
fn is_same_state(a: &Entry, b: &Entry) -> bool
    ensures same { result ≡ true → state_of a.now ≡ state_of b.now }
    ensures other { result ≡ false → state_of a.now ≡ state_of b.now → ⊥ }
{
    a.size == b.size && are_same_pages(&a.pages, &b.pages)
}

/// Whether two lists of pages are one.
fn are_same_pages(a: &Pages, b: &Pages) -> bool
    ensures same { result ≡ true → a.now ≡ b.now }
    ensures other { result ≡ false → a.now ≡ b.now → ⊥ }
{
    if a.len() != b.len() {
        return false;
    }
    for at in 0..a.len() {
        let (Some(page), Some(other)) = (a.get(at), b.get(at)) else {
            unreachable!()
        };
        if page.bytes() != other.bytes() {
            return false;
        }
    }
    true
}
