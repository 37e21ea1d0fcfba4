//! A list of names of files.

ghost use Rattle.std.specs.Prelude.{◌≡◌, [], ◌∷◌, ◌++◌, OnOk, OnErr};

use crate::file_name::FileName;
use ls_base::Memory;
use std::alloc::Global;
use std::marker::Model;

/// A list of names that grows at its end.
#[derive(Debug, Drop)]
pub struct FileNames {
    items: Vec<FileName>,
}

impl Model for FileNames {
    ghost use Rattle.std.specs.Prelude.{List};
    ghost use Rattle.replica_store.specs.declared.file_name.FileName.{FileName};

    ghost Value = { List FileName };

    ghost view = { λ names. names.items.items };
}

impl FileNames {
    /// No names. Takes no memory.
    pub fn new(alloc: Global) -> FileNames
        ensures { result ≡ [] }
    {
        FileNames {
            items: Vec::new(alloc),
        }
    }

    /// The names of a vector. Takes no memory.
    pub fn from_vec(items: Vec<FileName>) -> FileNames
        ensures { result ≡ items.items }
    {
        FileNames { items }
    }

    /// The names as a vector. Takes no memory.
    pub fn into_vec(self) -> Vec<FileName>
        ensures { result.items ≡ self }
    {
        self.items
    }

    /// Puts the name last. `Memory` for want of it, and the list is then as it was.
    pub fn push(&mut self, name: FileName) -> Result<(), Memory>
        ensures ok { OnOk result (self.new ≡ self.old ++ name ∷ []) }
        ensures err { OnErr result (self.new ≡ self.old) }
    {
        self.items.push(name)?;
        Ok(())
    }

    /// The names, lent.
    pub fn as_slice(&self) -> &[FileName]
        ensures { result.now ≡ self.now }
    {
        self.items.as_slice()
    }
}
