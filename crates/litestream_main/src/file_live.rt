//! Real files as a live database.

ghost use Rattle.std.specs.Prelude.{◌≡◌, None};
ghost use Rattle.ls_base.specs.Fault.{HasCause};

use crate::live_files::LiveFiles;
use file_disk::counted;
use live_gate::{Attached, Live, LiveFault, Pass, PassFault};
use ls_base::{PageSize, Place};
use std::alloc::Global;
use std::io::ErrorKind;

/// To which database a `FileLive` is attached, and whether nobody else has it open.
#[derive(Drop)]
pub struct Attachment {
    path: String,
    at_rest: bool,
}

/// A database file and its log as real files. It doesn't tell its content.
///
/// The gate is the file `DB-litestream-gate` beside the database: an application that sees it copies no frame
/// past the offset that it holds into the database file, and neither restarts nor cuts the log. Before the first
/// `attach` each call fails. A call that finds no memory for a path fails too.
#[derive(Drop)]
pub struct FileLive {
    attached: Option<Attachment>,
    files: LiveFiles,
    /// The offset in the log from which the next `read` answers.
    at: u64,
    /// Where the gate is held, as an offset in the log: 0 for no commit.
    held: Option<u64>,
    faults: u64,
}

impl FileLive {
    /// A live database that is attached to no path yet.
    pub fn new(runtime: HostRuntime) -> FileLive
        ensures attached { result.attached ≡ None }
        ensures faults { result.faults ≡ 0 }
    {
        FileLive {
            attached: None,
            files: LiveFiles::new(runtime),
            at: 0,
            held: None,
            faults: 0,
        }
    }

    /// Gives up a hold.
    fn release(&mut self) -> Result<(), LiveFault>
        ensures attached { self.new.attached ≡ self.old.attached }
        ensures cause { HasCause self.old.faults self.new.faults result }
    {
        if self.held.is_some() {
            let answer = self.files.remove_gate();
            counted(&mut self.faults, answer, LiveFault)?;
            self.held = None;
        }
        self.files.close();
        Ok(())
    }

    /// Holds the gate at this offset.
    fn hold(&mut self, end: u64) -> Result<(), LiveFault>
        ensures attached { self.new.attached ≡ self.old.attached }
        ensures cause { HasCause self.old.faults self.new.faults result }
    {
        let answer = self.files.write_gate(end);
        counted(&mut self.faults, answer, LiveFault)?;
        self.held = Some(end);
        Ok(())
    }

    /// Whether a pass up to the place may take place: nobody else has the database open, and the gate is held at the
    /// place.
    fn may_pass(&self, place: &Place) -> bool {
        let at_rest = self.attached.as_ref().is_some_and(|at| at.at_rest);
        match place {
            Place::Wal { end, .. } => at_rest && self.held == Some(*end),
            Place::Rest { .. } => false,
        }
    }
}

impl Live for FileLive {
    ghost use Rattle.std.specs.Prelude.{None, false, option_map, string_bytes, refl};
    ghost use Rattle.live_gate.specs.LiveRecord.{Attachment as AttachmentOf};

    ghost told = { λ _. None };

    ghost attached = { λ live.
        option_map (λ at. record { path = string_bytes at.path; at_rest = at.at_rest }) live.attached };

    ghost fault_count = { λ live. live.faults };

    ghost is_there = { λ _ _. false };

    ghost content = { λ _ _. None };

    fn attach(&mut self, alloc: Global, path: &str, at_rest: bool) -> Result<Attached, PassFault> {
        let kept = String::from_str(alloc, path)?;
        self.release()?;
        let found = match self.files.attach(alloc, path) {
            Err(error) if error.kind() == ErrorKind::OutOfMemory => return Err(PassFault::Memory),
            answer => counted(&mut self.faults, answer, LiveFault)?,
        };
        self.attached = Some(Attachment {
            path: kept,
            at_rest,
        });
        Ok(found)
    }

    fn enter(&mut self) -> Result<(), LiveFault> {
        self.files.close();
        self.hold(0)
    }

    fn advance(&mut self, end: u64) -> Result<(), LiveFault> {
        self.hold(end)
    }

    fn leave(&mut self) -> Result<(), LiveFault> {
        self.release()
    }

    fn db_head(&mut self, into: &mut [u8; 100]) -> Result<usize, LiveFault> {
        let answer = self.files.read_database(0, into);
        counted(&mut self.faults, answer, LiveFault)
    }

    fn db_size(&mut self) -> Result<u64, LiveFault> {
        let answer = self.files.database_size();
        counted(&mut self.faults, answer, LiveFault)
    }

    fn read_page(&mut self, size: PageSize, number: u32, into: &mut [u8]) -> Result<(), LiveFault> {
        let at = u64::from(number - 1) * u64::from(size.get());
        let answer = self.files.read_database(at, into);
        let count = counted(&mut self.faults, answer, LiveFault)?;
        into[count..].fill(0);
        Ok(())
    }

    fn wal_size(&mut self) -> Result<u64, LiveFault> {
        let answer = self.files.log_size();
        counted(&mut self.faults, answer, LiveFault)
    }

    fn aim(&mut self, at: u64) -> Result<(), LiveFault> {
        self.at = at;
        Ok(())
    }

    fn read(&mut self, into: &mut [u8]) -> Result<usize, LiveFault> {
        let answer = self.files.read_log(self.at, into);
        let count = counted(&mut self.faults, answer, LiveFault)?;
        self.at = self.at.saturating_add(count as u64);
        Ok(count)
    }

    fn pass(&mut self, alloc: Global, place: &Place) -> Result<Pass, PassFault> {
        if !self.may_pass(place) {
            return Ok(Pass::Kept);
        }
        let pass = match self.files.pass(alloc, place) {
            Err(error) if error.kind() == ErrorKind::OutOfMemory => return Err(PassFault::Memory),
            answer => counted(&mut self.faults, answer, LiveFault)?,
        };
        if pass == Pass::Passed {
            self.hold(0)?;
        }
        Ok(pass)
    }

    fn faults(&self) -> u64 {
        self.faults
    }

    ghost stands = { λ _ _ _. refl };
}
