//! The name of a file, and a list of them.

ghost use Rattle.std.specs.Prelude.{◌≡◌, ◌++◌, [], ◌∷◌, length, slice_get, IfOk, OnOk, OnErr, option_copied};
ghost use Rattle.crash_disk.specs.Files.{is_name};

use ls_base::Memory;
use std::alloc::Global;
use std::marker::Model;

/// The name of a file, a text. A contract sees its bytes.
#[derive(Debug, Drop)]
pub struct Name {
    text: String,
}

impl Model for Name {
    ghost use Rattle.std.specs.Prelude.{ℕ, List, string_bytes};

    ghost Value = { List ℕ };

    ghost view = { λ name. string_bytes name.text };
}

impl Name {
    /// A copy of the text. `Memory` for want of it.
    pub fn from_str(alloc: Global, text: &str) -> Result<Name, Memory>
        ensures { IfOk result (λ name. name ≡ text.now) }
    {
        Ok(Name {
            text: String::from_str(alloc, text)?,
        })
    }

    /// The text, lent.
    pub fn as_str(&self) -> &str
        ensures { result.now ≡ self.now }
    {
        self.text.as_str()
    }

    /// Whether this text is the name.
    pub fn is(&self, text: &str) -> bool
        ensures { result ≡ is_name text.now self.now }
    {
        text == self.text.as_str()
    }
}

/// A list of names. A contract sees the bytes of each.
#[derive(Debug, Drop)]
pub struct NameList {
    alloc: Global,
    names: Vec<Name>,
}

impl Model for NameList {
    ghost use Rattle.std.specs.Prelude.{ℕ, List};

    ghost Value = { List (List ℕ) };

    ghost view = { λ list. list.names.items };
}

impl NameList {
    /// No names. Takes no memory.
    pub fn new(alloc: Global) -> NameList
        ensures { result ≡ [] }
    {
        NameList {
            alloc,
            names: Vec::new(alloc),
        }
    }

    /// Puts the name last. `Memory` for want of it, and the list is then as it was.
    pub fn push(&mut self, name: &str) -> Result<(), Memory>
        ensures ok { OnOk result (self.new ≡ self.old ++ name.now ∷ []) }
        ensures err { OnErr result (self.new ≡ self.old) }
    {
        self.names.push(Name::from_str(self.alloc, name)?)?;
        Ok(())
    }

    /// How many names there are.
    pub fn len(&self) -> usize
        ensures { result ≡ length self.now }
    {
        self.names.len()
    }

    /// The name at this place, from 0 on. `None` exactly past the end.
    pub fn get(&self, at: usize) -> Option<&str>
        ensures { option_copied result ≡ slice_get self.now at }
    {
        match self.names.get(at) {
            Some(name) => Some(name.as_str()),
            None => None,
        }
    }
}
