//! Files and the record of what was done to them.

ghost use Rattle.std.specs.Prelude.{◌≡◌, ◌≢◌, ◌<◌, ◌^◌, [], ◌∷◌, length, IfOk, IfSome, OnOk, OnErr, option_copied};
ghost use Rattle.std.specs.Prelude.{reverse, ℕ, List};
ghost use Rattle.crash_disk.specs.Images.{ArePlaced};
ghost use Rattle.crash_disk.specs.Crash.{LeavesByChoice};
ghost use Rattle.crash_disk.specs.Crashed.{TakesLeft, AreLeft};
ghost use Rattle.crash_disk.specs.declared.event.Event.TheVariants.{Placed, Created, Appended, Wrote, Cut, Synced};
ghost use Rattle.crash_disk.specs.declared.event.Event.TheVariants.{Renamed, Removed, NamesSynced};
ghost use Rattle.crash_disk.specs.Files.{file_at, files_after};
ghost use Rattle.std.specs.FinMap as map;

use crate::event::Event;
use crate::file_bytes::LENGTH_LIMIT;
use crate::file_table::FileTable;
use crate::name::{Name, NameList};
use crate::replay::file_left;
use crate::replayed::copied;
use ls_base::{Bytes, Memory};
use std::alloc::Global;
use std::marker::Model;

/// Files, with the record of the changes that made them. A contract sees the record, newest first.
///
/// Where a call answers `Memory`, nothing was changed.
#[derive(Debug, Drop)]
pub struct Folder {
    alloc: Global,
    /// The record, newest last.
    events: Vec<Event>,
    files: FileTable,
}

impl Model for Folder {
    ghost use Rattle.std.specs.Prelude.{List, reverse};
    ghost use Rattle.crash_disk.specs.declared.event.Event.{Event};
    ghost use Rattle.crash_disk.specs.FolderFiles.{AreTheFiles};

    ghost Value = { List Event };

    ghost view = { λ f. reverse f.events.items };

    ghost invariant = { λ f. AreTheFiles f.files (reverse f.events.items) };
}

impl Folder {
    /// No files and no changes. Takes no memory.
    pub fn new(alloc: Global) -> Folder
        ensures { result ≡ [] }
    {
        Folder {
            alloc,
            events: Vec::new(alloc),
            files: FileTable::new(alloc),
        }
    }

    /// The bytes of the file, if there is one.
    pub fn get(&self, name: &str) -> Option<&[u8]>
        ensures value { option_copied result ≡ file_at self.now name.now }
        ensures short { IfSome result (λ bytes. length bytes.now < 2 ^ 63) }
    {
        self.files.get(name)
    }

    /// The names of the files, in the order of their bytes.
    pub fn names(&self, alloc: Global) -> Result<NameList, Memory>
        ensures { IfOk result (λ names. names ≡ map.keys (files_after self.now)) }
    {
        self.files.names(alloc)
    }

    /// Places a file with these bytes under the name.
    pub fn place(&mut self, name: &str, bytes: &[u8]) -> Result<(), Memory>
        ensures ok { OnOk result (self.new ≡ Placed name.now bytes.now ∷ self.old) }
        ensures err { OnErr result (self.new ≡ self.old) }
    {
        if bytes.len() >= LENGTH_LIMIT {
            return Err(Memory);
        }
        let file = copied(self.alloc, bytes)?;
        let record = copied(self.alloc, bytes)?;
        self.events
            .push(Event::Placed(Name::from_str(self.alloc, name)?, record))?;
        match self.files.put(name, file) {
            Ok(()) => Ok(()),
            Err(memory) => {
                self.events.pop();
                Err(memory)
            }
        }
    }

    /// Makes an empty file under the name.
    pub fn create(&mut self, name: &str) -> Result<(), Memory>
        ensures ok { OnOk result (self.new ≡ Created name.now ∷ self.old) }
        ensures err { OnErr result (self.new ≡ self.old) }
    {
        self.events
            .push(Event::Created(Name::from_str(self.alloc, name)?))?;
        match self.files.put(name, Bytes::new(self.alloc)) {
            Ok(()) => Ok(()),
            Err(memory) => {
                self.events.pop();
                Err(memory)
            }
        }
    }

    /// Puts the bytes behind those of the file.
    pub fn append(&mut self, name: &str, bytes: &[u8]) -> Result<(), Memory>
        ensures ok { OnOk result (self.new ≡ Appended name.now bytes.now ∷ self.old) }
        ensures err { OnErr result (self.new ≡ self.old) }
    {
        let record = copied(self.alloc, bytes)?;
        self.events
            .push(Event::Appended(Name::from_str(self.alloc, name)?, record))?;
        match self.files.append(name, bytes) {
            Ok(()) => Ok(()),
            Err(memory) => {
                self.events.pop();
                Err(memory)
            }
        }
    }

    /// Writes the bytes over those of the file from the offset on.
    pub fn write_at(&mut self, name: &str, at: u64, bytes: &[u8]) -> Result<(), Memory>
        ensures ok { OnOk result (self.new ≡ Wrote name.now at bytes.now ∷ self.old) }
        ensures err { OnErr result (self.new ≡ self.old) }
    {
        let record = copied(self.alloc, bytes)?;
        self.events.push(Event::Wrote(Name::from_str(self.alloc, name)?, at, record))?;
        match self.files.write_at(name, at, bytes) {
            Ok(()) => Ok(()),
            Err(memory) => {
                self.events.pop();
                Err(memory)
            }
        }
    }

    /// Sets the length of the file in bytes.
    pub fn cut(&mut self, name: &str, size: u64) -> Result<(), Memory>
        ensures ok { OnOk result (self.new ≡ Cut name.now size ∷ self.old) }
        ensures err { OnErr result (self.new ≡ self.old) }
    {
        self.events
            .push(Event::Cut(Name::from_str(self.alloc, name)?, size))?;
        match self.files.cut(name, size) {
            Ok(()) => Ok(()),
            Err(memory) => {
                self.events.pop();
                Err(memory)
            }
        }
    }

    /// Gives the file the other name, instead of one that has it.
    pub fn rename(&mut self, from: &str, to: &str) -> Result<(), Memory>
        requires apart { from.now ≢ to.now }
        ensures ok { OnOk result (self.new ≡ Renamed from.now to.now ∷ self.old) }
        ensures err { OnErr result (self.new ≡ self.old) }
    {
        let target = Name::from_str(self.alloc, to)?;
        self.events
            .push(Event::Renamed(Name::from_str(self.alloc, from)?, target))?;
        match self.files.rename(from, to) {
            Ok(()) => Ok(()),
            Err(memory) => {
                self.events.pop();
                Err(memory)
            }
        }
    }

    /// Takes the name away.
    pub fn remove(&mut self, name: &str) -> Result<(), Memory>
        ensures ok { OnOk result (self.new ≡ Removed name.now ∷ self.old) }
        ensures err { OnErr result (self.new ≡ self.old) }
    {
        self.events
            .push(Event::Removed(Name::from_str(self.alloc, name)?))?;
        self.files.remove(name);
        Ok(())
    }

    /// Records that the file was synced.
    pub fn sync(&mut self, name: &str) -> Result<(), Memory>
        ensures ok { OnOk result (self.new ≡ Synced name.now ∷ self.old) }
        ensures err { OnErr result (self.new ≡ self.old) }
    {
        self.events
            .push(Event::Synced(Name::from_str(self.alloc, name)?))?;
        Ok(())
    }

    /// Records that the names were synced.
    pub fn sync_names(&mut self) -> Result<(), Memory>
        ensures ok { OnOk result (self.new ≡ NamesSynced ∷ self.old) }
        ensures err { OnErr result (self.new ≡ self.old) }
    {
        self.events.push(Event::NamesSynced)?;
        Ok(())
    }

    /// The files that a crash leaves by this choice, all of them placed.
    pub fn crashed(&self, choice: u64) -> Result<Folder, Memory>
        ensures placed { IfOk result (λ left. ArePlaced left) }
        ensures files { IfOk result (λ left. LeavesByChoice choice self.now left) }
    {
        let left = left_by_crash(self.alloc, &self.events, choice)?;
        Ok(left)
    }

    /// Places the file that a crash after these changes leaves at the name, unless it is there.
    fn take_left(&mut self, events: &[Event], name: &str, choice: u64) -> Result<(), Memory>
        ensures { OnOk result (TakesLeft choice (reverse events.now) name.now self.old self.new) }
    {
        if self.get(name).is_some() {
            return Ok(());
        }
        if let Some(bytes) = file_left(self.alloc, events, name, choice)? {
            self.place(name, bytes.as_slice())?;
        }
        Ok(())
    }
}

/// The files that a crash after these changes, the newest last, leaves by this choice.
fn left_by_crash(alloc: Global, events: &[Event], choice: u64) -> Result<Folder, Memory>
    ensures { IfOk result (λ left. AreLeft choice (reverse events.now) (reverse events.now) left) }
{
    let mut left = Folder::new(alloc);
    for event in events {
        if let Some(name) = event.name_given() {
            left.take_left(events, name.as_str(), choice)?;
        }
    }
    Ok(left)
}
