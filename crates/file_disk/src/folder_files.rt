//! The calls on real files below a folder.

ghost use Rattle.std.specs.Prelude.{◌≡◌, ◌<◌, ◌≤◌, ◌^◌, option_map, length, string_bytes, IfOk, IfSome, IsOk, IsSome};
ghost use Rattle.file_disk.specs.Path.{IsPathOf};

use crate::folders::{make_folders, path_below, push_names, sync_folder};
use crate::open_file::{Access, OpenFile};
use crate::open_files::OpenFiles;
use crate::real_file::{unless_absent, within_limit};
use crash_disk::NameList;
use std::alloc::Global;
use std::fs::{self, File, OpenOptions};
use std::io::{self, ErrorKind};

/// The folders that hold the files of the levels.
const LEVELS: [&str; 5] = ["ltx/0", "ltx/1", "ltx/2", "ltx/3", "ltx/9"];

/// The folders whose names `sync_names` brings to the disk.
const FOLDERS: [&str; 7] = [".", "ltx", "ltx/0", "ltx/1", "ltx/2", "ltx/3", "ltx/9"];

/// Opens real files by their names below a folder. The files that were used last stay open, until a call changes
/// the name or fails.
///
/// A call without a folder fails, and so does one that finds no memory for a path.
#[derive(Drop)]
pub struct FolderFiles {
    runtime: HostRuntime,
    open: OpenFiles,
}

impl FolderFiles {
    /// No file is open at first.
    pub fn new(runtime: HostRuntime) -> FolderFiles {
        FolderFiles {
            runtime,
            open: OpenFiles::new(),
        }
    }

    /// Closes all files.
    pub fn close_all(&mut self) {
        self.open.close_all();
    }

    /// The names of the regular files in the folders of the levels, where they exist. One that isn't a
    /// text is passed over.
    pub fn names(&self, folder: &Option<String>, alloc: Global) -> io::Result<NameList> {
        let mut names = NameList::new(alloc);
        for level in LEVELS {
            let path = self.path(folder, level)?;
            unless_absent(push_names(&self.runtime, path.as_str(), level, &mut names))?;
        }
        Ok(names)
    }

    /// The length of a file in bytes, or `None` where the name is absent.
    pub fn size(&self, folder: &Option<String>, name: &str) -> io::Result<Option<u64>>
        ensures bound { IfOk result (λ size. IfSome size (λ n. n < 2 ^ 63)) }
    {
        let path = self.path(folder, name)?;
        match fs::metadata(&self.runtime, path.as_str()) {
            Ok(metadata) => within_limit(metadata.len()),
            Err(error) if error.kind() == ErrorKind::NotFound => Ok(None),
            Err(error) => Err(error),
        }
    }

    /// Fills `into` from an offset on, and answers how many bytes that gave: fewer only where the
    /// file ends before, and 0 where the name is absent.
    pub fn read_at(
        &mut self,
        folder: &Option<String>,
        name: &str,
        at: u64,
        into: &mut [u8],
    ) -> io::Result<usize>
        ensures bound { IfOk result (λ n. n ≤ length into.old) }
    {
        match self.open(folder, name, Access::Reads) {
            Ok((name, file)) => {
                let count = file.read_at(at, into)?;
                self.keep(name, file);
                Ok(count)
            }
            Err(error) if error.kind() == ErrorKind::NotFound => Ok(0),
            Err(error) => Err(error),
        }
    }

    /// Makes an empty file, or empties the one there. The folders above it are made too.
    pub fn create(&mut self, folder: &Option<String>, name: &str) -> io::Result<()> {
        self.open.close(name);
        let path = self.path(folder, name)?;
        let file = match create_file(&self.runtime, path.as_str()) {
            Err(error) if error.kind() == ErrorKind::NotFound => {
                make_folders(&self.runtime, path.as_str())?;
                create_file(&self.runtime, path.as_str())?
            }
            answer => answer?,
        };
        let name = String::from_str(self.runtime.alloc(), name)?;
        self.keep(name, OpenFile::empty(file));
        Ok(())
    }

    /// Writes the bytes behind those of the file.
    pub fn append(&mut self, folder: &Option<String>, name: &str, bytes: &[u8]) -> io::Result<()> {
        let (name, mut file) = self.open(folder, name, Access::ReadsAndWrites)?;
        file.append(bytes)?;
        self.keep(name, file);
        Ok(())
    }

    /// Writes the bytes over those of the file from an offset on. Zeros fill a gap.
    pub fn write_at(
        &mut self,
        folder: &Option<String>,
        name: &str,
        at: u64,
        bytes: &[u8],
    ) -> io::Result<()> {
        let (name, mut file) = self.open(folder, name, Access::ReadsAndWrites)?;
        file.write_at(at, bytes)?;
        self.keep(name, file);
        Ok(())
    }

    /// Sets the length of a file in bytes. It grows by zeros.
    pub fn cut(&mut self, folder: &Option<String>, name: &str, size: u64) -> io::Result<()> {
        let (name, mut file) = self.open(folder, name, Access::ReadsAndWrites)?;
        file.cut(size)?;
        self.keep(name, file);
        Ok(())
    }

    /// Brings the file's bytes to the disk.
    pub fn sync(&mut self, folder: &Option<String>, name: &str) -> io::Result<()> {
        let (name, file) = self.open(folder, name, Access::Reads)?;
        file.sync()?;
        self.keep(name, file);
        Ok(())
    }

    /// Gives a file another name, in the place of a file that has it.
    pub fn rename(&mut self, folder: &Option<String>, from: &str, to: &str) -> io::Result<()> {
        self.open.close(from);
        self.open.close(to);
        let from = self.path(folder, from)?;
        let to = self.path(folder, to)?;
        fs::rename(&self.runtime, from.as_str(), to.as_str())
    }

    /// Takes a name away. Of an absent name it changes nothing.
    pub fn remove(&mut self, folder: &Option<String>, name: &str) -> io::Result<()> {
        self.open.close(name);
        let path = self.path(folder, name)?;
        unless_absent(fs::remove_file(&self.runtime, path.as_str()))
    }

    /// Brings the names in the folder and in those of the levels below it to the disk, where they
    /// exist.
    pub fn sync_names(&self, folder: &Option<String>) -> io::Result<()> {
        for inner in FOLDERS {
            let path = self.path(folder, inner)?;
            unless_absent(sync_folder(&self.runtime, path.as_str()))?;
        }
        Ok(())
    }

    /// The file by its name, with the name: the one that is open, where it serves. It is no more among those that
    /// stay open, so that a call which fails closes it.
    fn open(
        &mut self,
        folder: &Option<String>,
        name: &str,
        access: Access,
    ) -> io::Result<(String, OpenFile)> {
        if let Some(found) = self.open.take(name, access) {
            return Ok(found);
        }
        let path = self.path(folder, name)?;
        let file = OpenOptions::new()
            .read(true)
            .write(access == Access::ReadsAndWrites)
            .open(&self.runtime, path.as_str())?;
        let name = String::from_str(self.runtime.alloc(), name)?;
        Ok((name, OpenFile::new(access, file)))
    }

    /// Keeps the file open under its name.
    fn keep(&mut self, name: String, file: OpenFile) {
        self.open.put(self.runtime.alloc(), name, file);
    }

    fn path(&self, folder: &Option<String>, name: &str) -> io::Result<String>
        ensures value { IfOk result (λ path.
            IsPathOf (option_map string_bytes folder.now) name.now (string_bytes path)) }
        ensures attached { IsOk result → IsSome folder.now }
    {
        match folder {
            Some(folder) => Ok(path_below(self.runtime.alloc(), folder.as_str(), name)?),
            None => Err(ErrorKind::InvalidInput.into()),
        }
    }
}

fn create_file(runtime: &HostRuntime, path: &str) -> io::Result<File> {
    OpenOptions::new()
        .read(true)
        .write(true)
        .create(true)
        .truncate(true)
        .open(runtime, path)
}
