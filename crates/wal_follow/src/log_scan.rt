//! The scan of a log, with its page size.

ghost use Rattle.std.specs.Prelude.{◌≡◌, ◌∷◌, ℕ, ◌+◌, ◌<◌, ◌≤◌, ◌^◌, List, [], IfOk, Ok, length};
ghost use Rattle.wal_frames.specs.WalFormat.{read_header};
ghost use Rattle.wal_frames.specs.Marks.{last_mark_of};
ghost use Rattle.wal_frames.specs.Scanned.{HasTaken, Feeds, AnswersEnd, scanned_to};

use ls_base::{Mark, Memory, PageSize};
use std::alloc::Global;
use std::marker::Model;
use wal_frames::{Fed, Scan, WalHeader};

/// A scan of a log with the page size of its header.
#[derive(Debug, Drop)]
pub(crate) struct LogScan {
    size: PageSize,
    scan: Scan,
}

impl Model for LogScan {
    ghost use Rattle.std.specs.Prelude.{◌≡◌};
    ghost use Rattle.wal_frames.specs.Scanned.{Scanned};

    ghost Value = { Scanned };

    ghost view = { λ s. s.scan };

    ghost invariant = { λ s. s.size ≡ s.scan.head.size };
}

impl LogScan {
    /// A scan of the log with this header, which has taken nothing behind it. `Memory` for want of it.
    pub(crate) fn begin(alloc: Global, head: WalHeader) -> Result<LogScan, Memory>
        ensures value { IfOk result (λ scan. (log : List ℕ) → length log ≡ 32 → read_header log ≡ Ok head
            → HasTaken scan log) }
        ensures empty { IfOk result (λ scan. (scan.head ≡ head) × (scan.taken ≡ 0)) }
    {
        let size = head.size;
        let scan = Scan::begin(alloc, head)?;
        Ok(LogScan { size, scan })
    }

    /// Takes the piece up to the first end of a frame in it.
    pub(crate) fn feed(&mut self, piece: &[u8]) -> Fed
        requires short { self.old.taken + length piece.now < 2 ^ 63 }
        ensures value { Feeds self.old self.new piece.now result }
        ensures head { self.new.head ≡ self.old.head }
        ensures end { AnswersEnd self.new result }
    {
        self.scan.feed(piece)
    }

    /// Goes back to a mark.
    pub(crate) fn back(&mut self, to: &Mark)
        ensures exact { self.new ≡ scanned_to self.old.head to.now }
    {
        self.scan.back(to)
    }

    /// The last mark.
    pub(crate) fn last(&self) -> Option<Mark>
        ensures value { (log : List ℕ) → HasTaken self.now log → result ≡ last_mark_of log }
    {
        self.scan.last()
    }

    /// The page size of the log in bytes.
    pub(crate) fn size(&self) -> PageSize
        ensures { result ≡ self.now.head.size }
    {
        self.size
    }
}
