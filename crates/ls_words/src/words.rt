//! The words of a command.

ghost use Rattle.std.specs.Prelude.{◌≡◌, ◌+◌, ◌-◌, ◌^◌, ◌<◌, [], ◌∷◌, ◌++◌, length, ◌↔◌, IsTrue, OnOk, OnErr};
ghost use Rattle.std.specs.Prelude.{option_copied};
ghost use Rattle.std.specs.List.{slice_get, slice_index_or};

use ls_base::Memory;
use std::alloc::Global;
use std::marker::Model;

/// The words behind the program's name, fewer than 2^32 of them.
#[derive(Debug, Drop)]
pub struct Words {
    items: Vec<String>,
}

impl Model for Words {
    ghost use Rattle.std.specs.Prelude.{ℕ, ◌^◌, ◌<◌, List, map, string_bytes, vec_len};

    ghost Value = { List (List ℕ) };

    ghost view = { λ words. map string_bytes words.items.items };

    ghost invariant = { λ words. vec_len words.items < 2 ^ 32 };
}

impl Words {
    /// No words. Takes no memory.
    pub fn new(alloc: Global) -> Words
        ensures { result ≡ [] }
    {
        Words {
            items: Vec::new(alloc),
        }
    }

    /// Puts the word last. `Memory` for want of it, and the words are then as they were.
    pub fn push(&mut self, word: &str) -> Result<(), Memory>
        requires { length self.old < 2 ^ 32 - 1 }
        ensures ok { OnOk result (self.new ≡ self.old ++ word.now ∷ []) }
        ensures err { OnErr result (self.new ≡ self.old) }
    {
        let word = String::from_str(*self.items.allocator(), word)?;
        self.items.push(word)?;
        Ok(())
    }

    /// How many words there are.
    pub fn len(&self) -> u32
        ensures { result ≡ length self.now }
    {
        self.items.len() as u32
    }

    /// Whether there is no word.
    pub fn is_empty(&self) -> bool
        ensures { IsTrue result ↔ (self.now ≡ []) }
    {
        self.items.is_empty()
    }

    /// The word at this place, counted from 0. `None` exactly where `at` isn't below `len`.
    pub fn get(&self, at: u32) -> Option<&str>
        ensures { option_copied result ≡ slice_get self.now at }
    {
        let word = self.items.get(at as usize)?;
        Some(word.as_str())
    }
}

/// The word at this place, and an empty one where there is none.
pub fn word_at(words: &Words, at: u32) -> &str
    ensures { result.now ≡ slice_index_or words.now at [] }
{
    words.get(at).unwrap_or("")
}
