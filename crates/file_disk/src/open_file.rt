//! A real file that is open.

ghost use Rattle.std.specs.Prelude.{◌≡◌, ◌⊎◌, ◌≤◌, length, IfOk, IsTrue};

use crate::real_file::{fill, size_of, within_limit, write_whole};
use std::fs::File;
use std::io;

/// What a file is opened for.
#[derive(Clone, Copy, PartialEq, Eq)]
pub(crate) enum Access {
    Reads,
    ReadsAndWrites,
}

/// A file that is open, and what it was opened for.
#[derive(Drop)]
pub(crate) struct OpenFile {
    access: Access,
    file: File,
    /// The length in bytes, where it is known.
    length: Option<u64>,
}

impl OpenFile {
    pub(crate) fn new(access: Access, file: File) -> OpenFile {
        OpenFile {
            access,
            file,
            length: None,
        }
    }

    /// A file that was made anew, and is open for reads and writes.
    pub(crate) fn empty(file: File) -> OpenFile {
        OpenFile {
            access: Access::ReadsAndWrites,
            file,
            length: Some(0),
        }
    }

    /// Whether a call that needs this access may use the file.
    pub(crate) fn serves(&self, access: Access) -> bool
        ensures { IsTrue result → access ≡ Access.Reads ⊎ self.now.access ≡ access }
    {
        self.access == access || access == Access::Reads
    }

    /// Fills `into` from an offset on, and answers how many bytes that gave: fewer only where the file ends
    /// before.
    pub(crate) fn read_at(&self, at: u64, into: &mut [u8]) -> io::Result<usize>
        ensures bound { IfOk result (λ n. n ≤ length into.old) }
    {
        fill(&self.file, at, into)
    }

    /// Writes the bytes behind those of the file.
    pub(crate) fn append(&mut self, bytes: &[u8]) -> io::Result<()> {
        let length = self.length()?;
        self.put(length, bytes)
    }

    /// Writes the bytes over those of the file from an offset on. Zeros fill a gap.
    pub(crate) fn write_at(&mut self, at: u64, bytes: &[u8]) -> io::Result<()> {
        // A write of no bytes fills no gap by itself.
        if self.length()? < at {
            self.cut(at)?;
        }
        self.put(at, bytes)
    }

    /// Sets the length in bytes. The file grows by zeros.
    pub(crate) fn cut(&mut self, size: u64) -> io::Result<()> {
        within_limit(size)?;
        self.file.set_len(size)?;
        self.length = Some(size);
        Ok(())
    }

    /// Brings the bytes to the disk.
    pub(crate) fn sync(&self) -> io::Result<()> {
        self.file.sync_all()
    }

    /// The length in bytes, which is asked for once: nobody else writes the file while it is open.
    fn length(&mut self) -> io::Result<u64> {
        match self.length {
            Some(length) => Ok(length),
            None => {
                let length = size_of(&self.file)?;
                self.length = Some(length);
                Ok(length)
            }
        }
    }

    fn put(&mut self, at: u64, bytes: &[u8]) -> io::Result<()> {
        let end = at.saturating_add(bytes.len() as u64);
        within_limit(end)?;
        write_whole(&self.file, at, bytes)?;
        self.length = self.length.map(|length| length.max(end));
        Ok(())
    }
}
