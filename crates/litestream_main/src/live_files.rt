//! The real files of a live database: the database file, its log and the gate.

ghost use Rattle.std.specs.Prelude.{◌≡◌, ◌≤◌, ◌<◌, ◌^◌, ◌++◌, length, string_bytes, IfOk};

use crate::passing::pass_over;
use crash_disk::{Disk, NamesFault};
use file_disk::{FileDisk, fill, size_of, unless_absent, write_whole};
use live_gate::{Attached, Pass};
use ls_base::Place;
use std::alloc::{AllocError, Global};
use std::fs::{self, File, OpenOptions};
use std::io::{self, ErrorKind};

/// The most bytes of a log that go through the system in one read.
const PIECE_BYTES: usize = 1 << 16;

/// What the path of the log has behind that of the database file.
const LOG_ENDING: &str = "-wal";

/// The paths of a database's files.
#[derive(Drop)]
struct Paths {
    database: String,
    log: String,
    gate: String,
    /// Where the gate is written until it is whole.
    draft: String,
}

impl Paths {
    /// `DB`, `DB-wal` and `DB-litestream-gate` for the database at the path `DB`.
    fn new(alloc: Global, database: &str) -> Result<Paths, AllocError> {
        Ok(Paths {
            database: String::from_str(alloc, database)?,
            log: with_ending(alloc, database, LOG_ENDING)?,
            gate: with_ending(alloc, database, "-litestream-gate")?,
            draft: with_ending(alloc, database, "-litestream-gate.tmp")?,
        })
    }
}

/// The path with this ending.
fn with_ending(alloc: Global, path: &str, ending: &str) -> Result<String, AllocError>
    ensures { IfOk result (λ whole. string_bytes whole ≡ path.now ++ ending.now) }
{
    let mut whole = String::from_str(alloc, path)?;
    whole.push_str(ending)?;
    Ok(whole)
}

/// Opens the real files of a live database. Once opened they stay open until the gate is given up or taken
/// anew. A call before the first `attach` fails.
#[derive(Drop)]
pub struct LiveFiles {
    runtime: HostRuntime,
    paths: Option<Paths>,
    database: Option<File>,
    log: Option<File>,
}

impl LiveFiles {
    /// No file is open at first.
    pub fn new(runtime: HostRuntime) -> LiveFiles {
        LiveFiles {
            runtime,
            paths: None,
            database: None,
            log: None,
        }
    }

    /// Whether a database file is at the path, which is that of the later calls then. A folder there is an
    /// error, and so is a path through a file. After an error the path is as before.
    pub fn attach(&mut self, alloc: Global, path: &str) -> io::Result<Attached> {
        let paths = Paths::new(alloc, path)?;
        let found = match fs::metadata(&self.runtime, path) {
            Ok(metadata) if metadata.is_file() => Attached::Found,
            Ok(_) => return Err(ErrorKind::InvalidInput.into()),
            Err(error) if error.kind() == ErrorKind::NotFound => Attached::Absent,
            Err(error) => return Err(error),
        };
        self.close();
        self.paths = Some(paths);
        Ok(found)
    }

    /// Closes the database file and the log.
    pub fn close(&mut self) {
        self.database = None;
        self.log = None;
    }

    /// Writes the gate: the offset in 16 hexadecimal digits, up to which frames may be copied, and a line
    /// feed. It gets its name when all of it is on the disk.
    pub fn write_gate(&mut self, end: u64) -> io::Result<()> {
        let paths = attached(&self.paths)?;
        let line = format!(in self.runtime.alloc(); "{end:016x}\n")?;
        let file = OpenOptions::new()
            .write(true)
            .create(true)
            .truncate(true)
            .open(&self.runtime, paths.draft.as_str())?;
        write_whole(&file, 0, line.as_bytes())?;
        file.sync_all()?;
        fs::rename(&self.runtime, paths.draft.as_str(), paths.gate.as_str())
    }

    /// Takes the gate away, where it is.
    pub fn remove_gate(&mut self) -> io::Result<()> {
        let paths = attached(&self.paths)?;
        unless_absent(fs::remove_file(&self.runtime, paths.gate.as_str()))
    }

    /// The length of the database file in bytes.
    pub fn database_size(&mut self) -> io::Result<u64>
        ensures bound { IfOk result (λ n. n < 2 ^ 63) }
    {
        size_of(self.database()?)
    }

    /// Fills `into` from an offset of the database file on, and answers how many bytes that gave: fewer only
    /// where the file ends before.
    pub fn read_database(&mut self, at: u64, into: &mut [u8]) -> io::Result<usize>
        ensures bound { IfOk result (λ n. n ≤ length into.old) }
    {
        fill(self.database()?, at, into)
    }

    /// The length of the log in bytes, 0 where there is none. One that wasn't there is looked for again.
    pub fn log_size(&mut self) -> io::Result<u64> {
        match self.log()? {
            Some(log) => size_of(log),
            None => Ok(0),
        }
    }

    /// Fills a front of `into`, at most 64 KiB, from an offset of the log on, and answers how many bytes that
    /// gave: fewer only where the log ends before.
    pub fn read_log(&mut self, at: u64, into: &mut [u8]) -> io::Result<usize>
        ensures bound { IfOk result (λ n. n ≤ length into.old) }
    {
        let count = into.len().min(PIECE_BYTES);
        match self.log()? {
            Some(log) => fill(log, at, &mut into[..count]),
            None => Ok(0),
        }
    }

    /// Copies the log up to the place into the database file, and empties it. Kept where the log's last commit isn't
    /// that of the place. Files that are open are closed before.
    pub fn pass(&mut self, alloc: Global, place: &Place) -> io::Result<Pass> {
        self.close();
        let paths = attached(&self.paths)?;
        let log = with_ending(alloc, paths.database.as_str(), LOG_ENDING)?;
        let mut disk = FileDisk::new(self.runtime);
        // Below the current folder, which has no name, a name is a path.
        match disk.attach(alloc, "") {
            Ok(()) => pass_over(
                alloc,
                &mut disk,
                paths.database.as_str(),
                log.as_str(),
                place,
            ),
            Err(NamesFault::Memory) => Err(ErrorKind::OutOfMemory.into()),
            Err(NamesFault::Disk(_)) => Err(ErrorKind::Other.into()),
        }
    }

    /// The database file, open.
    fn database(&mut self) -> io::Result<&File> {
        if self.database.is_none() {
            let paths = attached(&self.paths)?;
            self.database = Some(File::open(&self.runtime, paths.database.as_str())?);
        }
        self.database.as_ref().ok_or(ErrorKind::NotFound.into())
    }

    /// The log, open, where there is one.
    fn log(&mut self) -> io::Result<Option<&File>> {
        if self.log.is_none() {
            let paths = attached(&self.paths)?;
            self.log = match File::open(&self.runtime, paths.log.as_str()) {
                Ok(log) => Some(log),
                Err(error) if error.kind() == ErrorKind::NotFound => None,
                Err(error) => return Err(error),
            };
        }
        Ok(self.log.as_ref())
    }
}

/// The paths of the last `attach`.
fn attached(paths: &Option<Paths>) -> io::Result<&Paths> {
    paths.as_ref().ok_or(ErrorKind::InvalidInput.into())
}
