//! A live database that never moves.

ghost use Rattle.std.specs.Prelude.{◌≡◌, None, Some, false, IfOk};
ghost use Rattle.live_gate.specs.Still.{StillState};

use crate::answer::{Attached, Pass};
use crate::fault::{LiveFault, PassFault};
use crate::live::Live;
use crate::piece::{copy_front, fill_page, rest_from};
use ls_base::{Bytes, Memory, PageSize, Place};
use std::alloc::Global;
use std::marker::Model;

/// A database file and its log as two lists of bytes, which never move. It tells its content, finds itself
/// at every path, never fails, and refuses each pass. Its history has an entry a mark of the log, with the
/// view there, and where there is no mark the one at rest. Nothing of the log is copied.
#[derive(Debug, Drop)]
pub struct StillLive {
    db: Bytes,
    wal: Bytes,
    path: Option<Bytes>,
    at_rest: bool,
    held: Option<u64>,
    aimed: u64,
    // How many bytes were answered since the aim.
    answered: u64,
    gave_none: bool,
    // Whether the head of the database file and the two sizes were asked.
    head: bool,
    db_size: bool,
    wal_size: bool,
    // How many bytes were answered at all, and how often a pass was asked.
    taken: u64,
    passes: u64,
}

impl Model for StillLive {
    ghost use Rattle.std.specs.Prelude.{ℕ, ◌-◌, ◌≤◌, length, option_map};
    ghost use Rattle.live_gate.specs.LiveRecord.{Attachment};
    ghost use Rattle.live_gate.specs.Still.{StillState, attachment_of};

    ghost Value = { StillState };

    ghost view = { λ s. record {
      db = s.db;
      wal = s.wal;
      attached = attachment_of s.path s.at_rest;
      held = s.held;
      aimed = s.aimed;
      answered = s.answered;
      gave_none = s.gave_none;
      head = s.head;
      db_size = s.db_size;
      wal_size = s.wal_size;
      taken = s.taken;
      passes = s.passes;
    } };

    ghost invariant = { λ s. s.answered ≤ length s.wal - s.aimed };
}

impl StillLive {
    ghost use Rattle.live_gate.specs.Still.{unasked};

    /// A database file and its log with copies of these bytes. Nothing was asked of it. `Memory` for want
    /// of it.
    pub fn new(alloc: Global, db: &[u8], wal: &[u8]) -> Result<StillLive, Memory>
        ensures { IfOk result (λ live. live ≡ unasked db.now wal.now) }
    {
        let mut file = Bytes::new(alloc);
        file.extend(db)?;
        let mut log = Bytes::new(alloc);
        log.extend(wal)?;
        Ok(StillLive {
            db: file,
            wal: log,
            path: None,
            at_rest: false,
            held: None,
            aimed: 0,
            answered: 0,
            gave_none: false,
            head: false,
            db_size: false,
            wal_size: false,
            taken: 0,
            passes: 0,
        })
    }
}

impl Live for StillLive {
    ghost use Rattle.std.specs.Prelude.{Some, true, refl};
    ghost use Rattle.live_gate.specs.Still.{still_record};

    ghost told = { λ s. Some (still_record s) };

    ghost attached = { λ s. s.attached };

    ghost fault_count = { λ _. 0 };

    ghost is_there = { λ _ _. true };

    ghost content = { λ s _. Some (still_record s) };

    fn attach(&mut self, alloc: Global, path: &str, at_rest: bool) -> Result<Attached, PassFault> {
        let mut at = Bytes::new(alloc);
        at.extend(path.as_bytes())?;
        self.path = Some(at);
        self.at_rest = at_rest;
        self.held = None;
        Ok(Attached::Found)
    }

    fn enter(&mut self) -> Result<(), LiveFault> {
        self.held = Some(0);
        Ok(())
    }

    fn advance(&mut self, end: u64) -> Result<(), LiveFault> {
        self.held = Some(end);
        Ok(())
    }

    fn leave(&mut self) -> Result<(), LiveFault> {
        self.held = None;
        Ok(())
    }

    fn db_head(&mut self, into: &mut [u8; 100]) -> Result<usize, LiveFault> {
        self.head = true;
        Ok(copy_front(self.db.as_slice(), into))
    }

    fn db_size(&mut self) -> Result<u64, LiveFault> {
        self.db_size = true;
        Ok(self.db.as_slice().len() as u64)
    }

    fn read_page(&mut self, size: PageSize, number: u32, into: &mut [u8]) -> Result<(), LiveFault> {
        let at = u64::from(number - 1) * u64::from(size.get());
        fill_page(rest_from(self.db.as_slice(), at), into);
        Ok(())
    }

    fn wal_size(&mut self) -> Result<u64, LiveFault> {
        self.wal_size = true;
        Ok(self.wal.as_slice().len() as u64)
    }

    fn aim(&mut self, at: u64) -> Result<(), LiveFault> {
        self.aimed = at;
        self.answered = 0;
        Ok(())
    }

    fn read(&mut self, into: &mut [u8]) -> Result<usize, LiveFault> {
        let wal = self.wal.as_slice();
        let count = copy_front(rest_from(wal, self.aimed + self.answered), into);
        self.answered += count as u64;
        self.gave_none = count == 0;
        self.taken = self.taken.saturating_add(count as u64);
        Ok(count)
    }

    fn pass(&mut self, _alloc: Global, _place: &Place) -> Result<Pass, PassFault> {
        self.passes = self.passes.saturating_add(1);
        Ok(Pass::Kept)
    }

    fn faults(&self) -> u64 {
        0
    }

    ghost stands = { λ live at is. refl };
}
