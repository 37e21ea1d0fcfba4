//! The trait of a disk.

ghost use Rattle.std.specs.Prelude.{◌≡◌, ◌≢◌, ◌<◌, ◌≤◌, ◌^◌, ℕ, List, Option, Some, length, is_some, IfOk, IfSome};
ghost use Rattle.std.specs.Prelude.{OnOk, OnErr};
ghost use Rattle.crash_disk.specs.declared.event.Event.{Event};
ghost use Rattle.crash_disk.specs.declared.event.Event.TheVariants.{Created, Appended, Wrote, Cut, Synced, Renamed};
ghost use Rattle.crash_disk.specs.declared.event.Event.TheVariants.{Removed, NamesSynced};
ghost use Rattle.ls_base.specs.Fault.{HasCause};
ghost use Rattle.crash_disk.specs.Fault.{NamesHasCause};
ghost use Rattle.crash_disk.specs.Told.{Told, gains, gives, Keeps, IfTold, GainsOrNot, GainsPrefixOrNot};
ghost use Rattle.crash_disk.specs.Told.{GainsBytesOrNot};
ghost use Rattle.crash_disk.specs.Files.{size_of, IsThere, IsReadOf, AreNamesOf};

use crate::fault::{DiskFault, NamesFault};
use crate::name::NameList;
use std::alloc::Global;

/// A disk: files by name, in the folder that it is attached to.
///
/// A disk may tell its content or not; clauses on content hold where it does. Over a disk that doesn't
/// tell, a call that needs a name which is absent is a counted fault.
pub trait Disk {
    /// The record of changes, newest first, where the disk tells its content.
    ghost told: { Self → Told };

    /// The path of the last `attach` that answered Ok.
    ghost folder: { Self → Option (List ℕ) };

    /// How often a call has failed, up to the last value of a `u64`.
    ghost fault_count: { Self → ℕ };

    /// What the disk would tell if it were attached to the folder at the path. A change in one folder says
    /// nothing of another, since two paths may name one folder.
    ghost content: { Self → List ℕ → Told };

    /// How many bytes `read_at` has answered so far, up to the last value of a `u64`, where the disk tells
    /// its content.
    ghost given: { Self → Option ℕ };

    /// Binds the disk to a folder. An absent folder is a disk without files, and `create` makes it. `Memory`
    /// for want of it.
    fn attach(&mut self, alloc: Global, path: &str) -> Result<(), NamesFault>
        ensures ok { OnOk result (folder self.new ≡ Some path.now) }
        ensures err { OnErr result (folder self.new ≡ folder self.old) }
        ensures untold { OnErr result (told self.new ≡ told self.old) }
        ensures unchanged { content self.new path.now ≡ content self.old path.now }
        ensures given { given self.new ≡ given self.old }
        ensures cause { NamesHasCause (fault_count self.old) (fault_count self.new) result };

    /// The names of the files, each once. `Memory` for want of it.
    fn names(&mut self, alloc: Global) -> Result<NameList, NamesFault>
        ensures value { IfOk result (λ names. IfTold (told self.old) (λ events. AreNamesOf events names)) }
        ensures unchanged { told self.new ≡ told self.old }
        ensures keeps { Keeps (folder self.old) (folder self.new) (given self.old) (given self.new) }
        ensures cause { NamesHasCause (fault_count self.old) (fault_count self.new) result };

    /// The length of a file in bytes, below 2^63. `None` exactly where the name is absent.
    fn size(&mut self, name: &str) -> Result<Option<u64>, DiskFault>
        ensures value { IfOk result (λ size. IfTold (told self.old) (λ events. size ≡ size_of events name.now)) }
        ensures bound { IfOk result (λ size. IfSome size (λ n. n < 2 ^ 63)) }
        ensures unchanged { told self.new ≡ told self.old }
        ensures keeps { Keeps (folder self.old) (folder self.new) (given self.old) (given self.new) }
        ensures cause { HasCause (fault_count self.old) (fault_count self.new) result };

    /// Fills `into` from the offset `at` on, and answers how many bytes that gave: the length of `into`
    /// or, where less stands from there on, as many; 0 for an absent name.
    fn read_at(&mut self, name: &str, at: u64, into: &mut [u8]) -> Result<usize, DiskFault>
        ensures value { IfOk result (λ n. IfTold (told self.old) (λ es. IsReadOf es name.now at into.old into.new n)) }
        ensures bound { IfOk result (λ n. n ≤ length into.old) }
        ensures unchanged { told self.new ≡ told self.old }
        ensures same_folder { folder self.new ≡ folder self.old }
        ensures gave { IfOk result (λ n. given self.new ≡ gives (given self.old) n) }
        ensures gave_none { OnErr result (given self.new ≡ given self.old) }
        ensures cause { HasCause (fault_count self.old) (fault_count self.new) result };

    /// Makes an empty file, with the folders above it. A file of that name becomes empty.
    fn create(&mut self, name: &str) -> Result<(), DiskFault>
        ensures ok { OnOk result (told self.new ≡ gains (told self.old) (Created name.now)) }
        ensures err { OnErr result (GainsOrNot (told self.old) (told self.new) (Created name.now)) }
        ensures keeps { Keeps (folder self.old) (folder self.new) (given self.old) (given self.new) }
        ensures cause { HasCause (fault_count self.old) (fault_count self.new) result };

    /// Puts the bytes behind those of the file. At a fault a front of them may have been put.
    fn append(&mut self, name: &str, bytes: &[u8]) -> Result<(), DiskFault>
        requires there { IfTold (told self.old) (λ events. IsThere events name.now) }
        ensures ok { OnOk result (told self.new ≡ gains (told self.old) (Appended name.now bytes.now)) }
        ensures err { OnErr result (GainsPrefixOrNot (told self.old) (told self.new) name.now bytes.now) }
        ensures keeps { Keeps (folder self.old) (folder self.new) (given self.old) (given self.new) }
        ensures cause { HasCause (fault_count self.old) (fault_count self.new) result };

    /// Writes the bytes over those of the file from the offset on. Past the end of the file zeros stand
    /// between. At a fault any bytes may stand where these were to be written.
    fn write_at(&mut self, name: &str, at: u64, bytes: &[u8]) -> Result<(), DiskFault>
        requires there { IfTold (told self.old) (λ events. IsThere events name.now) }
        ensures ok { OnOk result (told self.new ≡ gains (told self.old) (Wrote name.now at bytes.now)) }
        ensures err { OnErr result (GainsBytesOrNot (told self.old) (told self.new) name.now at (length bytes.now)) }
        ensures keeps { Keeps (folder self.old) (folder self.new) (given self.old) (given self.new) }
        ensures cause { HasCause (fault_count self.old) (fault_count self.new) result };

    /// Sets the length of the file in bytes. A file grows by zeros.
    fn cut(&mut self, name: &str, size: u64) -> Result<(), DiskFault>
        requires there { IfTold (told self.old) (λ events. IsThere events name.now) }
        ensures ok { OnOk result (told self.new ≡ gains (told self.old) (Cut name.now size)) }
        ensures err { OnErr result (GainsOrNot (told self.old) (told self.new) (Cut name.now size)) }
        ensures keeps { Keeps (folder self.old) (folder self.new) (given self.old) (given self.new) }
        ensures cause { HasCause (fault_count self.old) (fault_count self.new) result };

    /// Brings the file's bytes to the disk: after Ok a crash leaves them.
    fn sync(&mut self, name: &str) -> Result<(), DiskFault>
        requires there { IfTold (told self.old) (λ events. IsThere events name.now) }
        ensures ok { OnOk result (told self.new ≡ gains (told self.old) (Synced name.now)) }
        ensures err { OnErr result (told self.new ≡ told self.old) }
        ensures keeps { Keeps (folder self.old) (folder self.new) (given self.old) (given self.new) }
        ensures cause { HasCause (fault_count self.old) (fault_count self.new) result };

    /// Gives the file `from` the name `to`, in the place of a file that has it.
    fn rename(&mut self, from: &str, to: &str) -> Result<(), DiskFault>
        requires there { IfTold (told self.old) (λ events. IsThere events from.now) }
        requires apart { from.now ≢ to.now }
        ensures ok { OnOk result (told self.new ≡ gains (told self.old) (Renamed from.now to.now)) }
        ensures err { OnErr result (GainsOrNot (told self.old) (told self.new) (Renamed from.now to.now)) }
        ensures keeps { Keeps (folder self.old) (folder self.new) (given self.old) (given self.new) }
        ensures cause { HasCause (fault_count self.old) (fault_count self.new) result };

    /// Takes the name away. Of an absent name it changes nothing.
    fn remove(&mut self, name: &str) -> Result<(), DiskFault>
        ensures ok { OnOk result (told self.new ≡ gains (told self.old) (Removed name.now)) }
        ensures err { OnErr result (GainsOrNot (told self.old) (told self.new) (Removed name.now)) }
        ensures keeps { Keeps (folder self.old) (folder self.new) (given self.old) (given self.new) }
        ensures cause { HasCause (fault_count self.old) (fault_count self.new) result };

    /// Brings the names to the disk: after Ok a crash leaves them.
    fn sync_names(&mut self) -> Result<(), DiskFault>
        ensures ok { OnOk result (told self.new ≡ gains (told self.old) NamesSynced) }
        ensures err { OnErr result (told self.new ≡ told self.old) }
        ensures keeps { Keeps (folder self.old) (folder self.new) (given self.old) (given self.new) }
        ensures cause { HasCause (fault_count self.old) (fault_count self.new) result };

    /// How often a call has failed.
    fn faults(&self) -> u64
        ensures { result ≡ fault_count self.now };

    /// What is told is the content of the folder that the disk is attached to.
    ghost stands: { (disk : Self) (path : List ℕ) → folder disk ≡ Some path → content disk path ≡ told disk };

    /// A disk tells how many bytes it gave exactly where it tells its content.
    ghost counts: { (disk : Self) → is_some (given disk) ≡ is_some (told disk) };
}
