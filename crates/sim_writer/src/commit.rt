//! Commits.

ghost use Rattle.std.specs.Prelude.{◌≡◌, ◌≤◌, OnOk, OnErr, IfOk, if◌then◌else◌};
ghost use Rattle.wal_frames.specs.WalFormat.{HasSums};
ghost use Rattle.sim_writer.specs.CommitFrames.{IsCommit};
ghost use Rattle.sim_writer.specs.Commits.{Front, Makes, Puts, Commits, counted};
ghost use Rattle.sim_writer.specs.Sound.{IsSound};

use crate::frames::put_frames;
use crate::machine::Machine;
use ls_base::{Bytes, ChangePages, Entry, Memory, Place};
use ls_sums::WalSum;
use std::alloc::Global;
use wal_frames::write_wal_header;

/// The length of what stands before a frame's page, in bytes.
const FRAME_HEADER_BYTES: usize = 24;

/// A commit as yet only made: its bytes behind the committed part, its entry, and the running sums at its end.
#[derive(Debug, Drop)]
pub(crate) struct Made {
    pub(crate) bytes: Bytes,
    pub(crate) entry: Entry,
    pub(crate) sums: WalSum,
}

impl Machine {
    /// Appends the pages to the log as one commit. `Memory` for want of it, and nothing has changed then.
    pub(crate) fn commit(
        &mut self,
        alloc: Global,
        pages: &ChangePages,
        size: u32,
    ) -> Result<(), Memory>
        requires sound { IsSound self.old }
        requires commit { IsCommit self.old.head.size pages.now size }
        ensures ok { OnOk result (Commits pages.now size self.old self.new) }
        ensures sound { IsSound self.new }
        ensures err { OnErr result (self.new ≡ self.old) }
    {
        let made = self.make(alloc, pages, size)?;
        self.put(made)?;
        Ok(())
    }

    /// The commit of these pages, as yet only made.
    fn make(&self, alloc: Global, pages: &ChangePages, size: u32) -> Result<Made, Memory>
        requires sound { IsSound self.now }
        requires commit { IsCommit self.now.head.size pages.now size }
        ensures { IfOk result (Makes self.now pages.now size) }
    {
        let mut bytes = self.front(alloc)?;
        let mut buffer = vec![in alloc; 0u8; FRAME_HEADER_BYTES + self.head.size.get() as usize]?;
        let sums = put_frames(
            &self.head,
            self.sums,
            pages,
            size,
            buffer.as_mut_slice(),
            &mut bytes,
        )?;
        let pages = self.pages_after(alloc, pages, size)?;
        let end = self.committed.as_slice().len() + bytes.as_slice().len();
        let place = Place::Wal {
            salt1: self.head.salt1,
            salt2: self.head.salt2,
            end: end as u64,
            s0: sums.s0,
            s1: sums.s1,
        };
        let entry = Entry {
            size: self.head.size,
            place,
            pages,
        };
        Ok(Made { bytes, entry, sums })
    }

    /// What stands before the frames of the next commit: the header where the log has no commit, else nothing.
    fn front(&self, alloc: Global) -> Result<Bytes, Memory>
        requires { HasSums self.now.head }
        ensures { IfOk result (Front self.now) }
    {
        let mut bytes = Bytes::new(alloc);
        if self.committed.as_slice().is_empty() {
            let mut header = [0; 32];
            write_wal_header(&self.head, &mut header);
            bytes.extend(&header)?;
        }
        Ok(bytes)
    }

    /// Takes the commit into the log and the history. `Memory` for want of it, and nothing has changed then.
    fn put(&mut self, made: Made) -> Result<(), Memory>
        ensures ok { OnOk result (Puts made self.old self.new) }
        ensures err { OnErr result (self.new ≡ self.old) }
    {
        let Made { bytes, entry, sums } = made;
        let twin = self.history.has_twin(&entry);
        self.history.push(entry)?;
        let written = bytes.as_slice();
        if self.committed.extend(written).is_err() {
            self.history.pop();
            return Err(Memory);
        }
        let tail = self.tail.as_slice().len();
        self.over = self.over.saturating_add(written.len()).min(tail);
        self.headed = true;
        self.sums = sums;
        self.chances = count_if(self.chances, twin);
        Ok(())
    }
}

/// One more where that is so, up to the last value.
pub(crate) fn count_if(count: u64, rises: bool) -> u64
    ensures value { result ≡ (if rises then counted count else count) }
    ensures later { count ≤ result }
{
    if rises {
        return count.saturating_add(1);
    }
    count
}
