//! The scan of a log.

ghost use Rattle.std.specs.Prelude.{◌≡◌, ℕ, ◌+◌, ◌-◌, ◌<◌, ◌^◌, ◌≤◌, ◌==◌, if◌then◌else◌, Option, Some, IfOk, Ok};
ghost use Rattle.std.specs.Prelude.{List, [], ◌++◌, length, take};
ghost use Rattle.wal_frames.specs.WalFormat.{read_header};
ghost use Rattle.wal_frames.specs.WalFrame as format;
ghost use Rattle.wal_frames.specs.Marks.{mark_with, IsMark, last_mark_of};
ghost use Rattle.wal_frames.specs.Scanned.{HasTaken, Feeds, AnswersEnd, scanned_to, stop_of};

use crate::fault::NotValid;
use crate::fed::Fed;
use crate::frame::{FRAME_HEADER_BYTES, Frame, check_frame};
use crate::header::{HEADER_BYTES, WalHeader};
use crate::part::Part;
use ls_base::{Mark, Memory};
use ls_sums::WalSum;
use std::alloc::Global;
use std::marker::Model;

/// A scan of the bytes of a log behind its header.
///
/// It takes them in any pieces, and finds the valid prefix: the longest list of whole frames behind the header
/// that are valid.
#[derive(Debug, Drop)]
pub struct Scan {
    head: WalHeader,
    part: Part,
    taken: u64,
    end: u64,
    sums: WalSum,
    last: Option<Mark>,
    stopped: Option<NotValid>,
}

impl Model for Scan {
    ghost use Rattle.std.specs.Prelude.{◌≡◌, ◌+◌, ◌<◌, ◌≤◌, length};
    ghost use Rattle.wal_frames.specs.WalFrame.{frame_length};
    ghost use Rattle.wal_frames.specs.Scanned.{Scanned};

    ghost Value = { Scanned };

    ghost view = { λ s. record {
      head = s.head;
      taken = s.taken;
      end = s.end;
      sums = s.sums;
      held = s.part.bytes;
      last = s.last;
      stopped = s.stopped;
    } };

    ghost invariant = { λ s. (s.part.room ≡ frame_length s.head) × (length s.part.bytes < s.part.room)
        × (s.end + length s.part.bytes ≤ s.taken + 32) };
}

impl Scan {
    /// A scan of the log with this header, which has taken nothing behind it. Takes memory for one frame;
    /// `Memory` for want of it.
    pub fn begin(alloc: Global, head: WalHeader) -> Result<Scan, Memory>
        ensures value { IfOk result (λ scan. (log : List ℕ) → length log ≡ 32 → read_header log ≡ Ok head
            → HasTaken scan log) }
        ensures empty { IfOk result (λ scan. (scan.head ≡ head) × (scan.taken ≡ 0)) }
    {
        let part = Part::new(alloc, FRAME_HEADER_BYTES + head.size.get() as usize)?;
        Ok(Scan {
            head,
            part,
            taken: 0,
            end: HEADER_BYTES as u64,
            sums: WalSum {
                s0: head.s0,
                s1: head.s1,
            },
            last: None,
            stopped: None,
        })
    }

    /// Takes a piece of the log, up to the end of the first frame of the valid prefix that ends in it, or
    /// whole where none does. The caller feeds what is left. Fewer than 2^63 bytes can be taken in all.
    pub fn feed(&mut self, piece: &[u8]) -> Fed
        requires { self.old.taken + length piece.now < 2 ^ 63 }
        ensures value { Feeds self.old self.new piece.now result }
        ensures end { AnswersEnd self.new result }
        ensures head { self.new.head ≡ self.old.head }
    {
        if self.stopped.is_some() {
            self.taken += piece.len() as u64;
            return Fed::All;
        }
        let length = FRAME_HEADER_BYTES + self.head.size.get() as usize;
        let missing = length - self.part.len();
        if piece.len() < missing {
            self.part.push(piece);
            self.taken += piece.len() as u64;
            return Fed::All;
        }
        match checked(&mut self.part, &self.head, self.sums, &piece[..missing]) {
            Frame::Valid {
                number,
                commit,
                sums,
            } => {
                self.taken += missing as u64;
                self.end += length as u64;
                self.sums = sums;
                self.last = last_after(self.last, mark_at(&self.head, self.end, sums, commit));
                Fed::Frame {
                    taken: missing,
                    number,
                    commit,
                    end: self.end,
                }
            }
            Frame::Not(fault) => {
                self.taken += piece.len() as u64;
                self.stopped = Some(fault);
                Fed::All
            }
        }
    }

    /// Goes back to a mark of the valid prefix: the bytes taken are then those before its end. Takes no memory.
    pub fn back(&mut self, to: &Mark)
        ensures value { (log : List ℕ) → HasTaken self.old log → IsMark log to.now
            → HasTaken self.new (take to.now.end log) }
        ensures exact { self.new ≡ scanned_to self.old.head to.now }
    {
        self.part.clear();
        self.taken = to.end.saturating_sub(HEADER_BYTES as u64);
        self.end = to.end;
        self.sums = WalSum {
            s0: to.s0,
            s1: to.s1,
        };
        self.last = Some(*to);
        self.stopped = None;
    }

    /// The last mark of the valid prefix of the bytes taken. `None` exactly where no frame of it commits.
    pub fn last(&self) -> Option<Mark>
        ensures value { (log : List ℕ) → HasTaken self.now log → result ≡ last_mark_of log }
    {
        self.last
    }

    /// The fault of the first whole frame behind the valid prefix. `None` exactly where no whole frame stands
    /// there.
    pub fn stopped(&self) -> Option<NotValid>
        ensures value { (log : List ℕ) → HasTaken self.now log → result ≡ stop_of log }
    {
        self.stopped
    }
}

/// Checks the frame that ends with these bytes, behind those that are held. Holds nothing afterwards. A frame
/// that lies whole in them is checked in place.
fn checked(part: &mut Part, head: &WalHeader, sums: WalSum, bytes: &[u8]) -> Frame
    requires room { part.old.room ≡ format.frame_length head.now }
    requires whole { length part.old.bytes + length bytes.now ≡ format.frame_length head.now }
    ensures value { result ≡ format.checked head.now sums (part.old.bytes ++ bytes.now) }
    ensures held { part.new ≡ record { room = part.old.room; bytes = [] } }
{
    if part.len() == 0 {
        return check_frame(head, sums, bytes);
    }
    part.push(bytes);
    let frame = check_frame(head, sums, part.as_slice());
    part.clear();
    frame
}

/// The mark of a frame with this end, running sums and commit size.
fn mark_at(head: &WalHeader, end: u64, sums: WalSum, commit: u32) -> Mark
    ensures { result ≡ mark_with head.now end sums commit }
{
    Mark {
        salt1: head.salt1,
        salt2: head.salt2,
        end,
        s0: sums.s0,
        s1: sums.s1,
        commit,
    }
}

/// The last mark after a frame whose mark this is, if it commits.
fn last_after(last: Option<Mark>, mark: Mark) -> Option<Mark>
    ensures { result ≡ (if mark.commit == 0 then last else Some mark) }
{
    if mark.commit == 0 {
        return last;
    }
    Some(mark)
}
