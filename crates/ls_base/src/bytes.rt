//! A list of bytes.

ghost use Rattle.std.specs.Prelude.{◌≡◌, ◌+◌, ◌-◌, ◌≤◌, [], ◌++◌, length, take, drop, replicate, OnOk, OnErr};

use crate::memory::Memory;
use std::alloc::Global;
use std::marker::Model;

/// A list of bytes that grows at its end.
#[derive(Debug, Drop)]
pub struct Bytes {
    items: Vec<u8>,
}

/// The bytes of a file.
pub type FileBytes = Bytes;

impl Model for Bytes {
    ghost use Rattle.std.specs.Prelude.{ℕ, List};

    ghost Value = { List ℕ };

    ghost view = { λ bytes. bytes.items.items };
}

impl Bytes {
    /// No bytes. Takes no memory.
    pub fn new(alloc: Global) -> Bytes
        ensures { result ≡ [] }
    {
        Bytes {
            items: Vec::new(alloc),
        }
    }

    /// The bytes of a vector. Takes no memory.
    pub fn from_vec(items: Vec<u8>) -> Bytes
        ensures { result ≡ items.items }
    {
        Bytes { items }
    }

    /// The bytes as a vector. Takes no memory.
    pub fn into_vec(self) -> Vec<u8>
        ensures { result.items ≡ self }
    {
        self.items
    }

    /// Puts the bytes last. `Memory` for want of it, and the list is then as it was.
    pub fn extend(&mut self, bytes: &[u8]) -> Result<(), Memory>
        ensures ok { OnOk result (self.new ≡ self.old ++ bytes.now) }
        ensures err { OnErr result (self.new ≡ self.old) }
    {
        self.items.extend_from_slice(bytes)?;
        Ok(())
    }

    /// Cuts the list to so many bytes, or lets it grow to them by zeros. `Memory` for want of it, and the list
    /// is then as it was.
    pub fn resize(&mut self, len: usize) -> Result<(), Memory>
        ensures ok { OnOk result (self.new ≡ take len self.old ++ replicate (len - length self.old) 0) }
        ensures err { OnErr result (self.new ≡ self.old) }
    {
        self.items.resize(len, 0)?;
        Ok(())
    }

    /// Writes the bytes over those from the offset `at` on. Takes no memory.
    pub fn overwrite(&mut self, at: usize, bytes: &[u8])
        requires room { at + length bytes.now ≤ length self.old }
        ensures { self.new ≡ take at self.old ++ bytes.now ++ drop (at + length bytes.now) self.old }
    {
        self.items[at..at + bytes.len()].copy_from_slice(bytes);
    }

    /// The bytes, lent.
    pub fn as_slice(&self) -> &[u8]
        ensures { result.now ≡ self.now }
    {
        self.items.as_slice()
    }
}
