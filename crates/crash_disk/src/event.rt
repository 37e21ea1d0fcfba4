//! What a disk records of a call that changed it.

ghost use Rattle.std.specs.Prelude.{◌≡◌, option_copied};
ghost use Rattle.crash_disk.specs.Crash.{name_given};

use crate::name::Name;
use ls_base::Bytes;

/// A change that a call made to a disk. The names and contents are lists of bytes to a contract.
#[derive(Debug, Drop)]
pub enum Event {
    /// A file was placed under the name with these bytes, all of it synced.
    Placed(Name, Bytes),
    /// An empty file was made under the name, or the one there became empty.
    Created(Name),
    /// The bytes were put behind those of the file.
    Appended(Name, Bytes),
    /// The bytes were written from the offset on.
    Wrote(Name, u64, Bytes),
    /// The length of the file was set.
    Cut(Name, u64),
    /// The file's bytes were synced.
    Synced(Name),
    /// The file under the first name went to the second.
    Renamed(Name, Name),
    /// The name was removed.
    Removed(Name),
    /// The names were synced.
    NamesSynced,
}

impl Event {
    /// The name under which the change puts a file, if it does.
    pub(crate) fn name_given(&self) -> Option<&Name>
        ensures { option_copied result ≡ name_given self.now }
    {
        match self {
            Event::Placed(name, _) => Some(name),
            Event::Created(name) => Some(name),
            Event::Renamed(_, to) => Some(to),
            Event::Appended(..) => None,
            Event::Wrote(..) => None,
            Event::Cut(..) => None,
            Event::Synced(_) => None,
            Event::Removed(_) => None,
            Event::NamesSynced => None,
        }
    }
}
