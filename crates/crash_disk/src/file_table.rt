//! Files by name.

ghost use Rattle.std.specs.Prelude.{◌≡◌, ◌≢◌, ◌<◌, ◌+◌, ◌^◌, ◌++◌, ◌↔◌, length, Some, IsTrue, IfOk, IfSome, OnOk};
ghost use Rattle.std.specs.Prelude.{OnErr, option_copied};
ghost use Rattle.std.specs.FinMap as map;
ghost use Rattle.crash_disk.specs.Files.{changed_now, moved, with_bytes_at, with_length};

use crate::file_bytes::{fits, set_length, write_over};
use crate::name::NameList;
use ls_base::{Bytes, Memory};
use std::alloc::Global;
use std::collections::BTreeMap;
use std::marker::Model;

/// Files by name, each shorter than 2^63 bytes.
#[derive(Debug, Drop)]
pub struct FileTable {
    alloc: Global,
    files: BTreeMap<String, Bytes>,
}

impl Model for FileTable {
    ghost use Rattle.std.specs.Prelude.{ℕ, List};
    ghost use Rattle.std.specs.Ordering.{nat_cmp};
    ghost use Rattle.std.specs.Cmp.Lexicographic.{slice_cmp};
    ghost use Rattle.std.specs.FinMap as map;
    ghost use Rattle.std.specs.Coded.{coded_ℕ, coded_list};

    ghost Value = { map.FinMap (slice_cmp nat_cmp) (List ℕ) };

    ghost coded = { map.code (coded_list coded_ℕ) (coded_list coded_ℕ) };

    ghost use Rattle.crash_disk.specs.FileTable.{by_name, IsShort};

    ghost view = { λ t. by_name t.files.entries };

    ghost invariant = { λ t. IsShort (by_name t.files.entries) };
}

impl FileTable {
    /// No files. Takes no memory.
    pub fn new(alloc: Global) -> FileTable
        ensures { result ≡ map.empty }
    {
        FileTable {
            alloc,
            files: BTreeMap::new(alloc),
        }
    }

    /// The bytes of the file, if there is one.
    pub fn get(&self, name: &str) -> Option<&[u8]>
        ensures value { option_copied result ≡ map.get self.now name.now }
        ensures short { IfSome result (λ bytes. length bytes.now < 2 ^ 63) }
    {
        match self.files.get(name) {
            Some(file) => Some(file.as_slice()),
            None => None,
        }
    }

    /// Places the file, instead of one that has the name.
    pub fn put(&mut self, name: &str, bytes: Bytes) -> Result<(), Memory>
        requires short { length bytes < 2 ^ 63 }
        ensures ok { OnOk result (self.new ≡ map.insert self.old name.now bytes) }
        ensures err { OnErr result (self.new ≡ self.old) }
    {
        let key = String::from_str(self.alloc, name)?;
        self.files.insert(key, bytes)?;
        Ok(())
    }

    /// Takes the file out, if there is one.
    pub fn remove(&mut self, name: &str) -> Option<Bytes>
        ensures value { result ≡ map.get self.old name.now }
        ensures short { IfSome result (λ bytes. length bytes < 2 ^ 63) }
        ensures removed { self.new ≡ map.remove self.old name.now }
    {
        self.files.remove(name)
    }

    /// Puts the bytes behind those of the file, if there is one.
    pub fn append(&mut self, name: &str, bytes: &[u8]) -> Result<(), Memory>
        ensures ok { OnOk result (self.new ≡ changed_now self.old name.now (λ old. old ++ bytes.now)) }
        ensures err { OnErr result (self.new ≡ self.old) }
    {
        let Some(file) = self.files.get_mut(name) else {
            return Ok(());
        };
        if !fits(file.as_slice().len(), bytes.len()) {
            return Err(Memory);
        }
        file.extend(bytes)?;
        Ok(())
    }

    /// Writes the bytes over those of the file from the offset on, if there is a file. Zeros fill a gap.
    pub fn write_at(&mut self, name: &str, at: u64, bytes: &[u8]) -> Result<(), Memory>
        ensures ok { OnOk result (self.new ≡ changed_now self.old name.now (with_bytes_at at bytes.now)) }
        ensures err { OnErr result (self.new ≡ self.old) }
    {
        let Some(file) = self.files.get_mut(name) else {
            return Ok(());
        };
        write_over(file, at, bytes)?;
        Ok(())
    }

    /// Cuts the file to the length in bytes, or lets it grow to it by zeros, if there is a file.
    pub fn cut(&mut self, name: &str, size: u64) -> Result<(), Memory>
        ensures ok { OnOk result (self.new ≡ changed_now self.old name.now (with_length size)) }
        ensures err { OnErr result (self.new ≡ self.old) }
    {
        let Some(file) = self.files.get_mut(name) else {
            return Ok(());
        };
        set_length(file, size)?;
        Ok(())
    }

    /// The names of the files, in the order of their bytes.
    pub fn names(&self, alloc: Global) -> Result<NameList, Memory>
        ensures { IfOk result (λ names. names ≡ map.keys self.now) }
    {
        let mut names = NameList::new(alloc);
        for name in self.files.keys() {
            names.push(name.as_str())?;
        }
        Ok(names)
    }

    /// Gives the name to other bytes, if there is a file of it. Takes no memory.
    pub fn replace(&mut self, name: &str, bytes: Bytes)
        requires short { length bytes < 2 ^ 63 }
        ensures { self.new ≡ changed_now self.old name.now (λ _. bytes) }
    {
        if let Some(file) = self.files.get_mut(name) {
            *file = bytes;
        }
    }

    /// Moves the file from one name to the other, instead of one that has it, if there is a file.
    pub fn rename(&mut self, from: &str, to: &str) -> Result<(), Memory>
        requires apart { from.now ≢ to.now }
        ensures ok { OnOk result (self.new ≡ moved self.old from.now to.now (map.get self.old from.now)) }
        ensures err { OnErr result (self.new ≡ self.old) }
    {
        if self.get(from).is_none() {
            return Ok(());
        }
        // The new name first: from then on nothing can fail.
        self.put(to, Bytes::new(self.alloc))?;
        if let Some(bytes) = self.remove(from) {
            self.replace(to, bytes);
        }
        Ok(())
    }
}
