//! Calls on a disk, as data.

ghost use Rattle.std.specs.Prelude.{IfOk, IsTrue};
ghost use Rattle.crash_disk.specs.Files.{IsThere};

use crash_disk::{Disk, DiskFault, MemDisk, NamesFault};
use std::alloc::Global;

/// A call on a disk.
#[derive(Clone, Copy)]
pub enum Step {
    Attach,
    Names,
    Size(&'static str),
    Read(&'static str),
    Create(&'static str),
    /// A change of the file of this name, which has to be there.
    On(&'static str, Change),
    Remove(&'static str),
    SyncNames,
}

/// A change of a file that is there.
#[derive(Clone, Copy)]
pub enum Change {
    Append(&'static str),
    WriteAt(u64, &'static str),
    Cut(u64),
    Sync,
    RenameTo(&'static str),
}

/// Makes the change of the file.
pub fn make(disk: &mut MemDisk, name: &str, change: &Change) -> Result<(), DiskFault>
    requires there { IsThere disk.old.events name.now }
{
    match change {
        Change::Append(text) => disk.append(name, text.as_bytes()),
        Change::WriteAt(at, text) => disk.write_at(name, *at, text.as_bytes()),
        Change::Cut(size) => disk.cut(name, *size),
        Change::Sync => disk.sync(name),
        Change::RenameTo(to) => {
            if name == *to {
                return Ok(());
            }
            disk.rename(name, to)
        }
    }
}

/// Whether a file has the name. Counts as one call.
fn has(disk: &mut MemDisk, name: &str) -> Result<bool, DiskFault>
    ensures there { IfOk result (λ has. IsTrue has → IsThere disk.new.events name.now) }
{
    let size = disk.size(name)?;
    Ok(size.is_some())
}

/// Makes the call. A change of a file that isn't there is passed over; whether it is there is one more call.
pub fn run(disk: &mut MemDisk, alloc: Global, step: &Step) -> Result<(), NamesFault> {
    match step {
        Step::Attach => disk.attach(alloc, "folder")?,
        Step::Names => {
            disk.names(alloc)?;
        }
        Step::Size(name) => {
            disk.size(name)?;
        }
        Step::Read(name) => {
            disk.read_at(name, 0, &mut [0; 4])?;
        }
        Step::Create(name) => disk.create(name)?,
        Step::On(name, change) => {
            if has(disk, name)? {
                make(disk, name, change)?;
            }
        }
        Step::Remove(name) => disk.remove(name)?,
        Step::SyncNames => disk.sync_names()?,
    }
    Ok(())
}
