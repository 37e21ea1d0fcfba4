//! Real files as a disk.

ghost use Rattle.std.specs.Prelude.{◌≡◌, None, option_map, string_bytes, refl};

use crate::counting::counted;
use crate::folder_files::FolderFiles;
use crash_disk::{Disk, DiskFault, NameList, NamesFault};
use std::alloc::Global;
use std::io::ErrorKind;

/// The real files below a folder, as a disk that doesn't tell its content. Nothing is buffered:
/// what a call wrote before it returned has gone to the system.
///
/// Before the first `attach` each call fails. A call that finds no memory for a path fails too.
#[derive(Drop)]
pub struct FileDisk {
    folder: Option<String>,
    files: FolderFiles,
    faults: u64,
}

impl FileDisk {
    /// A disk that is attached to no folder yet.
    pub fn new(runtime: HostRuntime) -> FileDisk
        ensures folder { result.folder ≡ None }
        ensures faults { result.faults ≡ 0 }
    {
        FileDisk {
            folder: None,
            files: FolderFiles::new(runtime),
            faults: 0,
        }
    }
}

impl Disk for FileDisk {
    ghost told = { λ _. None };

    ghost folder = { λ disk. option_map string_bytes disk.folder };

    ghost fault_count = { λ disk. disk.faults };

    ghost content = { λ _ _. None };

    ghost given = { λ _. None };

    fn attach(&mut self, alloc: Global, path: &str) -> Result<(), NamesFault> {
        let path = String::from_str(alloc, path)?;
        self.folder = Some(path);
        self.files.close_all();
        Ok(())
    }

    fn names(&mut self, alloc: Global) -> Result<NameList, NamesFault> {
        match self.files.names(&self.folder, alloc) {
            Err(error) if error.kind() == ErrorKind::OutOfMemory => Err(NamesFault::Memory),
            answer => Ok(counted(&mut self.faults, answer, DiskFault)?),
        }
    }

    fn size(&mut self, name: &str) -> Result<Option<u64>, DiskFault> {
        let answer = self.files.size(&self.folder, name);
        counted(&mut self.faults, answer, DiskFault)
    }

    fn read_at(&mut self, name: &str, at: u64, into: &mut [u8]) -> Result<usize, DiskFault> {
        let answer = self.files.read_at(&self.folder, name, at, into);
        counted(&mut self.faults, answer, DiskFault)
    }

    fn create(&mut self, name: &str) -> Result<(), DiskFault> {
        let answer = self.files.create(&self.folder, name);
        counted(&mut self.faults, answer, DiskFault)
    }

    fn append(&mut self, name: &str, bytes: &[u8]) -> Result<(), DiskFault> {
        let answer = self.files.append(&self.folder, name, bytes);
        counted(&mut self.faults, answer, DiskFault)
    }

    fn write_at(&mut self, name: &str, at: u64, bytes: &[u8]) -> Result<(), DiskFault> {
        let answer = self.files.write_at(&self.folder, name, at, bytes);
        counted(&mut self.faults, answer, DiskFault)
    }

    fn cut(&mut self, name: &str, size: u64) -> Result<(), DiskFault> {
        let answer = self.files.cut(&self.folder, name, size);
        counted(&mut self.faults, answer, DiskFault)
    }

    fn sync(&mut self, name: &str) -> Result<(), DiskFault> {
        let answer = self.files.sync(&self.folder, name);
        counted(&mut self.faults, answer, DiskFault)
    }

    fn rename(&mut self, from: &str, to: &str) -> Result<(), DiskFault> {
        let answer = self.files.rename(&self.folder, from, to);
        counted(&mut self.faults, answer, DiskFault)
    }

    fn remove(&mut self, name: &str) -> Result<(), DiskFault> {
        let answer = self.files.remove(&self.folder, name);
        counted(&mut self.faults, answer, DiskFault)
    }

    fn sync_names(&mut self) -> Result<(), DiskFault> {
        let answer = self.files.sync_names(&self.folder);
        counted(&mut self.faults, answer, DiskFault)
    }

    fn faults(&self) -> u64 {
        self.faults
    }

    ghost stands = { λ _ _ _. refl };

    ghost counts = { λ _. refl };
}
