//! Names of files with their moments.

ghost use Rattle.std.specs.Prelude.{◌≡◌, [], ◌∷◌, ◌++◌, OnOk, OnErr};

use crate::file_name::FileName;
use ls_base::Memory;
use std::alloc::Global;
use std::marker::Model;

/// The name of a transaction file, and the moment that its header tells, in milliseconds since
/// 1970-01-01T00:00:00Z.
#[derive(Clone, Copy, Debug, PartialEq, Eq)]
pub struct Dated {
    pub name: FileName,
    pub moment: u64,
}

/// A list of names with their moments that grows at its end.
#[derive(Debug, Drop)]
pub struct DatedNames {
    items: Vec<Dated>,
}

impl Model for DatedNames {
    ghost use Rattle.std.specs.Prelude.{List};
    ghost use Rattle.replica_store.specs.declared.dated_names.Dated.{Dated};

    ghost Value = { List Dated };

    ghost view = { λ names. names.items.items };
}

impl DatedNames {
    /// No names. Takes no memory.
    pub fn new(alloc: Global) -> DatedNames
        ensures { result ≡ [] }
    {
        DatedNames {
            items: Vec::new(alloc),
        }
    }

    /// The names of a vector. Takes no memory.
    pub fn from_vec(items: Vec<Dated>) -> DatedNames
        ensures { result ≡ items.items }
    {
        DatedNames { items }
    }

    /// The names as a vector. Takes no memory.
    pub fn into_vec(self) -> Vec<Dated>
        ensures { result.items ≡ self }
    {
        self.items
    }

    /// Puts the name and its moment last. `Memory` for want of it, and the list is then as it was.
    pub fn push(&mut self, dated: Dated) -> Result<(), Memory>
        ensures ok { OnOk result (self.new ≡ self.old ++ dated ∷ []) }
        ensures err { OnErr result (self.new ≡ self.old) }
    {
        self.items.push(dated)?;
        Ok(())
    }

    /// The names, lent.
    pub fn as_slice(&self) -> &[Dated]
        ensures { result.now ≡ self.now }
    {
        self.items.as_slice()
    }
}
