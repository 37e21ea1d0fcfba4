//! A disk in memory.

ghost use Rattle.std.specs.Prelude.{◌≡◌, ◌≢◌, ◌<◌, ◌≤◌, ◌+◌, ◌-◌, ◌^◌, ◌++◌, ℕ, List, [], ◌∷◌, Option, Some, None};
ghost use Rattle.std.specs.Prelude.{length, min, take, drop, IfOk, IfSome, IsErrOf, OnOk, OnErr, refl};
ghost use Rattle.crash_disk.specs.declared.event.Event.TheVariants.{Placed, Created, Appended, Wrote, Cut, Synced};
ghost use Rattle.crash_disk.specs.declared.event.Event.TheVariants.{Renamed, Removed, NamesSynced};
ghost use Rattle.ls_base.specs.Fault.{HasCause};
ghost use Rattle.crash_disk.specs.Fault.{NamesHasCause};
ghost use Rattle.crash_disk.specs.Told.{gains, Keeps, IfTold, GainsOrNot, GainsPrefixOrNot, GainsBytesOrNot};
ghost use Rattle.crash_disk.specs.Files.{files_after, file_at, size_of, IsThere, IsReadOf, AreNamesOf};
ghost use Rattle.crash_disk.specs.Images.{IsCrashImage, ArePlaced};
ghost use Rattle.crash_disk.specs.Crash.{LeavesByChoice};
ghost use Rattle.crash_disk.specs.Plan.{unused, with_failing, starved_once, Passes, Fails, FailsByPlan, FailsOrStarves};
ghost use Rattle.crash_disk.specs.Plan.{AnswersMemory};
ghost use Rattle.crash_disk.specs.Memory.{DiskState};

use crate::call_plan::CallPlan;
use crate::disk::Disk;
use crate::fault::{DiskFault, NamesFault};
use crate::folder::Folder;
use crate::name::NameList;
use ls_base::{Bytes, Memory};
use std::alloc::Global;
use std::marker::Model;

/// A disk in memory. It tells its content.
///
/// Its calls fail where `fail_at` named their number, where a stop of `stop_after` stands, and for want of
/// memory. A call that has no answer
/// for want of memory is then a fault, which `starved` counts too, and it has changed nothing. `size` and
/// `read_at` take no memory.
#[derive(Debug, Drop)]
pub struct MemDisk {
    files: Folder,
    path: Option<Bytes>,
    given: u64,
    plan: CallPlan,
}

impl Model for MemDisk {
    ghost use Rattle.crash_disk.specs.Memory.{DiskState};

    ghost Value = { DiskState };

    ghost view = { λ d. record { events = d.files; folder = d.path; given = d.given; plan = d.plan } };
}

impl MemDisk {
    /// An empty disk that is attached to no folder. Nothing is counted, and no call is to fail. Takes no
    /// memory.
    pub fn new(alloc: Global) -> MemDisk
        ensures { result ≡ record { events = []; folder = None; given = 0; plan = unused } }
    {
        MemDisk {
            files: Folder::new(alloc),
            path: None,
            given: 0,
            plan: CallPlan::new(alloc),
        }
    }

    /// Places a synced file with these bytes, instead of one that has the name. `Memory` for want of it,
    /// and the disk is then as it was. Counts as no call.
    pub fn put_file(&mut self, name: &str, bytes: &[u8]) -> Result<(), Memory>
        ensures ok { OnOk result (self.new ≡ record self.old { events = Placed name.now bytes.now ∷ self.old.events }) }
        ensures err { OnErr result (self.new ≡ self.old) }
    {
        self.files.place(name, bytes)?;
        Ok(())
    }

    /// Makes the call of this number fail too, counted from 1 since `new`. `Memory` for want of it, and
    /// the disk is then as it was. Counts as no call.
    pub fn fail_at(&mut self, call: u64) -> Result<(), Memory>
        ensures ok { OnOk result (self.new ≡ record self.old { plan = with_failing call self.old.plan }) }
        ensures err { OnErr result (self.new ≡ self.old) }
    {
        self.plan.fail_at(call)?;
        Ok(())
    }

    /// Lets so many more calls pass, and makes each later one fail until the next `crash`.
    pub fn stop_after(&mut self, calls: u64)
        ensures { self.new ≡ record self.old { plan = record self.old.plan { stop = Some calls } } }
    {
        self.plan.stop_after(calls);
    }

    /// Leaves the files that a crash now may leave, chosen by the number, and all of them synced. No stop
    /// stands afterwards. Choice 0 takes no change of a name or of bytes that wasn't synced, choice 1 takes
    /// all of them, choice 2 takes those of names alone. The others mix, name by name: some leave stray bytes
    /// where writes weren't synced, and some the length before the newest change.
    ///
    /// `Memory` for want of it, and the disk is then as it was. Counts as no call.
    pub fn crash(&mut self, choice: u64) -> Result<(), Memory>
        ensures image { OnOk result (IsCrashImage self.old.events (files_after self.new.events)) }
        ensures left { OnOk result (LeavesByChoice choice self.old.events self.new.events) }
        ensures synced { OnOk result (ArePlaced self.new.events) }
        ensures same_folder { self.new.folder ≡ self.old.folder }
        ensures same_given { self.new.given ≡ self.old.given }
        ensures plan { OnOk result (self.new.plan ≡ record self.old.plan { stop = None }) }
        ensures err { OnErr result (self.new ≡ self.old) }
    {
        self.files = self.files.crashed(choice)?;
        self.plan.lift_stop();
        Ok(())
    }

    /// How many calls were faults for want of memory.
    pub fn starved(&self) -> u64
        ensures { result ≡ self.now.plan.starved }
    {
        self.plan.starved()
    }

    /// Counts the next call, and fails where it is to fail.
    fn begin(&mut self) -> Result<(), DiskFault>
        ensures ok { OnOk result (Passes self.old.plan self.new.plan) }
        ensures err { OnErr result (Fails self.old.plan self.new.plan) }
        ensures rest { self.new ≡ record self.old { plan = self.new.plan } }
        ensures later { self.old.plan.faults ≤ self.new.plan.faults }
    {
        if self.plan.next_call_fails() {
            return Err(DiskFault);
        }
        Ok(())
    }

    /// Counts that the call at hand fails for want of memory.
    fn starve(&mut self) -> DiskFault
        ensures counts { self.new ≡ record self.old { plan = starved_once self.old.plan } }
        ensures later { self.old.plan.faults ≤ self.new.plan.faults }
    {
        self.plan.starve();
        DiskFault
    }
}

impl Disk for MemDisk {
    ghost told = { λ d. Some d.events };

    ghost folder = { λ d. d.folder };

    ghost fault_count = { λ d. d.plan.faults };

    ghost content = { λ d _. Some d.events };

    ghost given = { λ d. Some d.given };

    fn attach(&mut self, alloc: Global, path: &str) -> Result<(), NamesFault>
        ensures ok { OnOk result (self.new.folder ≡ Some path.now) }
        ensures err { OnErr result (self.new.folder ≡ self.old.folder) }
        ensures unchanged { self.new.events ≡ self.old.events }
        ensures given { self.new.given ≡ self.old.given }
        ensures plan { AnswersMemory self.old.plan self.new.plan result }
        ensures cause { NamesHasCause self.old.plan.faults self.new.plan.faults result }
    {
        self.begin()?;
        self.path = Some(Bytes::from_vec(path.as_bytes().to_vec(alloc)?));
        Ok(())
    }

    fn names(&mut self, alloc: Global) -> Result<NameList, NamesFault>
        ensures value { IfOk result (λ names. AreNamesOf self.old.events names) }
        ensures unchanged { self.new.events ≡ self.old.events }
        ensures keeps { Keeps self.old.folder self.new.folder (Some self.old.given) (Some self.new.given) }
        ensures plan { AnswersMemory self.old.plan self.new.plan result }
        ensures cause { NamesHasCause self.old.plan.faults self.new.plan.faults result }
    {
        self.begin()?;
        match self.files.names(alloc) {
            Ok(names) => Ok(names),
            Err(Memory) => Err(NamesFault::Memory),
        }
    }

    fn size(&mut self, name: &str) -> Result<Option<u64>, DiskFault>
        ensures value { IfOk result (λ size. size ≡ size_of self.old.events name.now) }
        ensures bound { IfOk result (λ size. IfSome size (λ n. n < 2 ^ 63)) }
        ensures unchanged { self.new.events ≡ self.old.events }
        ensures keeps { Keeps self.old.folder self.new.folder (Some self.old.given) (Some self.new.given) }
        ensures plan { FailsByPlan self.old.plan self.new.plan result }
        ensures cause { HasCause self.old.plan.faults self.new.plan.faults result }
    {
        self.begin()?;
        match self.files.get(name) {
            Some(bytes) => Ok(Some(bytes.len() as u64)),
            None => Ok(None),
        }
    }

    fn read_at(&mut self, name: &str, at: u64, into: &mut [u8]) -> Result<usize, DiskFault>
        ensures value { IfOk result (λ n. IsReadOf self.old.events name.now at into.old into.new n) }
        ensures bound { IfOk result (λ n. n ≤ length into.old) }
        ensures unchanged { self.new.events ≡ self.old.events }
        ensures same_folder { self.new.folder ≡ self.old.folder }
        ensures gave { IfOk result (λ n. self.new.given ≡ min (self.old.given + n) (2 ^ 64 - 1)) }
        ensures gave_none { OnErr result (self.new.given ≡ self.old.given) }
        ensures plan { FailsByPlan self.old.plan self.new.plan result }
        ensures cause { HasCause self.old.plan.faults self.new.plan.faults result }
    {
        self.begin()?;
        let count = match self.files.get(name) {
            Some(bytes) => read_from(bytes, at, into),
            None => 0,
        };
        self.given = self.given.saturating_add(count as u64);
        Ok(count)
    }

    fn create(&mut self, name: &str) -> Result<(), DiskFault>
        ensures ok { OnOk result (self.new.events ≡ Created name.now ∷ self.old.events) }
        ensures err { OnErr result (self.new.events ≡ self.old.events) }
        ensures keeps { Keeps self.old.folder self.new.folder (Some self.old.given) (Some self.new.given) }
        ensures plan { FailsOrStarves self.old.plan self.new.plan result }
        ensures cause { HasCause self.old.plan.faults self.new.plan.faults result }
    {
        self.begin()?;
        match self.files.create(name) {
            Ok(()) => Ok(()),
            Err(Memory) => Err(self.starve()),
        }
    }

    fn append(&mut self, name: &str, bytes: &[u8]) -> Result<(), DiskFault>
        requires there { IsThere self.old.events name.now }
        ensures ok { OnOk result (self.new.events ≡ Appended name.now bytes.now ∷ self.old.events) }
        ensures err { OnErr result (self.new.events ≡ self.old.events) }
        ensures keeps { Keeps self.old.folder self.new.folder (Some self.old.given) (Some self.new.given) }
        ensures plan { FailsOrStarves self.old.plan self.new.plan result }
        ensures cause { HasCause self.old.plan.faults self.new.plan.faults result }
    {
        self.begin()?;
        match self.files.append(name, bytes) {
            Ok(()) => Ok(()),
            Err(Memory) => Err(self.starve()),
        }
    }

    fn write_at(&mut self, name: &str, at: u64, bytes: &[u8]) -> Result<(), DiskFault>
        requires there { IsThere self.old.events name.now }
        ensures ok { OnOk result (self.new.events ≡ Wrote name.now at bytes.now ∷ self.old.events) }
        ensures err { OnErr result (self.new.events ≡ self.old.events) }
        ensures keeps { Keeps self.old.folder self.new.folder (Some self.old.given) (Some self.new.given) }
        ensures plan { FailsOrStarves self.old.plan self.new.plan result }
        ensures cause { HasCause self.old.plan.faults self.new.plan.faults result }
    {
        self.begin()?;
        match self.files.write_at(name, at, bytes) {
            Ok(()) => Ok(()),
            Err(Memory) => Err(self.starve()),
        }
    }

    fn cut(&mut self, name: &str, size: u64) -> Result<(), DiskFault>
        requires there { IsThere self.old.events name.now }
        ensures ok { OnOk result (self.new.events ≡ Cut name.now size ∷ self.old.events) }
        ensures err { OnErr result (self.new.events ≡ self.old.events) }
        ensures keeps { Keeps self.old.folder self.new.folder (Some self.old.given) (Some self.new.given) }
        ensures plan { FailsOrStarves self.old.plan self.new.plan result }
        ensures cause { HasCause self.old.plan.faults self.new.plan.faults result }
    {
        self.begin()?;
        match self.files.cut(name, size) {
            Ok(()) => Ok(()),
            Err(Memory) => Err(self.starve()),
        }
    }

    fn sync(&mut self, name: &str) -> Result<(), DiskFault>
        requires there { IsThere self.old.events name.now }
        ensures ok { OnOk result (self.new.events ≡ Synced name.now ∷ self.old.events) }
        ensures err { OnErr result (self.new.events ≡ self.old.events) }
        ensures keeps { Keeps self.old.folder self.new.folder (Some self.old.given) (Some self.new.given) }
        ensures plan { FailsOrStarves self.old.plan self.new.plan result }
        ensures cause { HasCause self.old.plan.faults self.new.plan.faults result }
    {
        self.begin()?;
        match self.files.sync(name) {
            Ok(()) => Ok(()),
            Err(Memory) => Err(self.starve()),
        }
    }

    fn rename(&mut self, from: &str, to: &str) -> Result<(), DiskFault>
        requires there { IsThere self.old.events from.now }
        requires apart { from.now ≢ to.now }
        ensures ok { OnOk result (self.new.events ≡ Renamed from.now to.now ∷ self.old.events) }
        ensures err { OnErr result (self.new.events ≡ self.old.events) }
        ensures keeps { Keeps self.old.folder self.new.folder (Some self.old.given) (Some self.new.given) }
        ensures plan { FailsOrStarves self.old.plan self.new.plan result }
        ensures cause { HasCause self.old.plan.faults self.new.plan.faults result }
    {
        self.begin()?;
        match self.files.rename(from, to) {
            Ok(()) => Ok(()),
            Err(Memory) => Err(self.starve()),
        }
    }

    fn remove(&mut self, name: &str) -> Result<(), DiskFault>
        ensures ok { OnOk result (self.new.events ≡ Removed name.now ∷ self.old.events) }
        ensures err { OnErr result (self.new.events ≡ self.old.events) }
        ensures keeps { Keeps self.old.folder self.new.folder (Some self.old.given) (Some self.new.given) }
        ensures plan { FailsOrStarves self.old.plan self.new.plan result }
        ensures cause { HasCause self.old.plan.faults self.new.plan.faults result }
    {
        self.begin()?;
        match self.files.remove(name) {
            Ok(()) => Ok(()),
            Err(Memory) => Err(self.starve()),
        }
    }

    fn sync_names(&mut self) -> Result<(), DiskFault>
        ensures ok { OnOk result (self.new.events ≡ NamesSynced ∷ self.old.events) }
        ensures err { OnErr result (self.new.events ≡ self.old.events) }
        ensures keeps { Keeps self.old.folder self.new.folder (Some self.old.given) (Some self.new.given) }
        ensures plan { FailsOrStarves self.old.plan self.new.plan result }
        ensures cause { HasCause self.old.plan.faults self.new.plan.faults result }
    {
        self.begin()?;
        match self.files.sync_names() {
            Ok(()) => Ok(()),
            Err(Memory) => Err(self.starve()),
        }
    }

    fn faults(&self) -> u64 {
        self.plan.faults()
    }

    ghost stands = { λ _ _ _. refl };

    ghost counts = { λ _. refl };
}

/// Copies the bytes from the offset `at` on into the front of `into`, and answers how many those are.
fn read_from(bytes: &[u8], at: u64, into: &mut [u8]) -> usize
    ensures count { result ≡ min (length into.old) (length bytes.now - at) }
    ensures bytes { into.new ≡ take result (drop at bytes.now) ++ drop result into.old }
{
    let start = bytes.len().min(at as usize);
    let count = into.len().min(bytes.len() - start);
    into[..count].copy_from_slice(&bytes[start..start + count]);
    count
}
