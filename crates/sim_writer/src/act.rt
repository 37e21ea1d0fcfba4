//! What a writer does.

use ls_base::{Bytes, ChangePages};

/// An act of the writer.
#[derive(Debug, Drop)]
pub enum Act {
    /// Appends the pages to the log in the order of their numbers, as one commit after which the database
    /// has `size` pages.
    ///
    /// Legal where there is a page, each number is from 1 to `size`, each page has the page size, and page 1,
    /// where it is among them and begins with an accepted header, says that page size.
    Commit { pages: ChangePages, size: u32 },
    /// Puts bytes behind the last mark, over those that stood there. Where there is no mark they stand behind the
    /// log's header, or at the start of a log that has none. Always legal.
    Loose(Bytes),
    /// Copies the frames up to the mark of this number, from 1, into the database file.
    ///
    /// Legal where that is a mark of the log, past the copied one and not past the held one.
    Backfill { mark: u32 },
    /// Begins the log anew: its next header, with this second salt, stands over the old one, and the bytes behind
    /// it stay.
    ///
    /// Legal where the log has a mark, all frames are copied, the database file has exactly the pages of the last
    /// mark's size, and the gate isn't held.
    Restart { salt2: u32 },
    /// Leaves a log of no bytes, of which the next header has the second salt of this one. Legal where `Restart` is.
    Cut,
    /// Stops the machine. The log falls back to the mark of this number, from 1, or for 0 to the state before its
    /// first commit. The tail stands behind, and behind the header of a log that has one where no mark is kept. The
    /// hold is given up, and each call but `attach` fails until that is made.
    ///
    /// Legal where that is a mark of the log that isn't before the copied one, or 0 where nothing is copied.
    Stop { mark: u32, tail: Bytes },
    /// Makes each pass be refused from now on, or no longer. Always legal.
    Refuse(bool),
    /// Makes the next call of `Live` fail. Always legal.
    Fault,
}
