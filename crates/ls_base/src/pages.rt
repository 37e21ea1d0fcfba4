//! A list of pages.

ghost use Rattle.std.specs.Prelude.{◌≡◌, ◌↔◌, [], ◌∷◌, ◌++◌, length, IsTrue, OnOk, OnErr, option_copied};
ghost use Rattle.std.specs.List.{slice_get};

use crate::memory::Memory;
use crate::page::Page;
use std::alloc::Global;
use std::marker::Model;

/// A list of pages that grows at its end.
#[derive(Debug, Drop)]
pub struct Pages {
    items: Vec<Page>,
}

impl Model for Pages {
    ghost use Rattle.std.specs.Prelude.{ℕ, List};

    ghost Value = { List (List ℕ) };

    ghost view = { λ pages. pages.items.items };
}

impl Pages {
    /// No pages. Takes no memory.
    pub fn new(alloc: Global) -> Pages
        ensures { result ≡ [] }
    {
        Pages {
            items: Vec::new(alloc),
        }
    }

    /// Puts the page last. `Memory` for want of it, and the list is then as it was.
    pub fn push(&mut self, page: Page) -> Result<(), Memory>
        ensures ok { OnOk result (self.new ≡ self.old ++ page ∷ []) }
        ensures err { OnErr result (self.new ≡ self.old) }
    {
        self.items.push(page)?;
        Ok(())
    }

    /// How many pages there are.
    pub fn len(&self) -> usize
        ensures { result ≡ length self.now }
    {
        self.items.len()
    }

    /// Whether there is no page.
    pub fn is_empty(&self) -> bool
        ensures { IsTrue result ↔ (self.now ≡ []) }
    {
        self.items.is_empty()
    }

    /// The page at this place, counted from 0. `None` exactly where `at` isn't below `len`.
    pub fn get(&self, at: usize) -> Option<&Page>
        ensures { option_copied result ≡ slice_get self.now at }
    {
        self.items.get(at)
    }
}
