//! The database and its log, as the writer has them.

ghost use Rattle.std.specs.Prelude.{◌≡◌, ◌+◌, OnOk, IfOk};
ghost use Rattle.std.specs.Prelude.{option_copied};
ghost use Rattle.std.specs.List.{slice_get};
ghost use Rattle.sim_writer.specs.Sound.{IsFresh, IsSound, fresh};

use crate::history::History;
use ls_base::{Bytes, Entry, Memory};
use ls_sums::WalSum;
use std::alloc::Global;
use wal_frames::WalHeader;

/// The database file, its log in two parts, and what the writer did with them.
#[derive(Debug, Drop)]
pub(crate) struct Machine {
    pub(crate) history: History,
    // The place in the history of the entry before those of the log's commits.
    pub(crate) before_log: usize,
    pub(crate) file: Bytes,
    // The log up to its last mark, and what stands behind, of which the first bytes were written over.
    pub(crate) committed: Bytes,
    pub(crate) tail: Bytes,
    pub(crate) over: usize,
    // Whether the log begins with its header.
    pub(crate) headed: bool,
    // The header of the log, or of the one that the next commit begins, and the running sums where it ends.
    pub(crate) head: WalHeader,
    pub(crate) sums: WalSum,
    pub(crate) copied: u64,
    pub(crate) held: Option<u64>,
    pub(crate) refuses: bool,
    pub(crate) stopped: bool,
    pub(crate) chances: u64,
}

impl Machine {
    /// The database of a file and its entry, with a log of no bytes that will begin with this header. `Memory`
    /// for want of it.
    pub(crate) fn fresh(
        alloc: Global,
        head: WalHeader,
        file: Bytes,
        entry: Entry,
    ) -> Result<Machine, Memory>
        requires fresh { IsFresh head file entry }
        ensures is { IfOk result (λ machine. machine ≡ fresh head file entry) }
        ensures sound { IfOk result IsSound }
    {
        let mut history = History::new(alloc);
        history.push(entry)?;
        Ok(Machine {
            history,
            before_log: 0,
            file,
            committed: Bytes::new(alloc),
            tail: Bytes::new(alloc),
            over: 0,
            headed: false,
            head,
            sums: WalSum {
                s0: head.s0,
                s1: head.s1,
            },
            copied: 0,
            held: None,
            refuses: false,
            stopped: false,
            chances: 0,
        })
    }
    /// The entry of the mark of this number, from 1, or the one before those for 0.
    pub(crate) fn entry_of(&self, number: u32) -> Option<&Entry>
        requires sound { IsSound self.now }
        ensures { option_copied result ≡ slice_get self.now.history (self.now.before_log + number) }
    {
        let after = self.history.len() - self.before_log;
        if number as usize >= after {
            return None;
        }
        self.history.get(self.before_log + number as usize)
    }
}
