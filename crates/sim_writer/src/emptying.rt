//! A log that ceases to have a commit.

ghost use Rattle.std.specs.Prelude.{◌≡◌, ℕ, ◌+◌, ◌*◌, ◌++◌, ◌↔◌, true, false, Some, None, length, drop, IsTrue};
ghost use Rattle.std.specs.Prelude.{IfOk, IfSome, OnOk, OnErr};
ghost use Rattle.std.specs.List.{slice_get};
ghost use Rattle.ls_base.specs.declared.entry.Entry.{Entry};
ghost use Rattle.ls_base.specs.State.{State};
ghost use Rattle.live_gate.specs.Legal.{last_state};
ghost use Rattle.wal_frames.specs.WalFormat.{HasSums, wal_header_bytes};
ghost use Rattle.sim_writer.specs.Emptying.{CanEmpty, IsNextHead, Empties, BeginsAnew, CutsLog};
ghost use Rattle.sim_writer.specs.OwnPass.{CanPass, TakesPass};
ghost use Rattle.sim_writer.specs.Sound.{IsSound, log_of};

use crate::commit::count_if;
use crate::copying::copied_file;
use crate::machine::Machine;
use crate::rest::{rest_entry, rest_from};
use ls_base::{Bytes, Entry, Memory, Place};
use ls_sums::WalSum;
use std::alloc::Global;
use wal_frames::{WalHeader, write_wal_header};

/// The length of a log's header in bytes.
const HEADER_BYTES: usize = 32;

impl Machine {
    /// Begins the log anew with this second salt where that may be. `false` where it may not. `Memory` for want
    /// of it. Nothing has changed in either case.
    pub(crate) fn restart(&mut self, alloc: Global, salt2: u32) -> Result<bool, Memory>
        requires sound { IsSound self.old }
        ensures done { IfOk result (λ done. done ≡ true → CanEmpty self.old × BeginsAnew salt2 self.old self.new) }
        ensures not { IfOk result (λ done. done ≡ false → (CanEmpty self.old → ⊥) × (self.new ≡ self.old)) }
        ensures sound { IsSound self.new }
        ensures err { OnErr result (self.new ≡ self.old) }
    {
        if !self.may_empty() {
            return Ok(false);
        }
        let head = self.next_head(salt2);
        let tail = self.begun_anew(alloc, &head)?;
        let entry = rest_entry(alloc, self.file.as_slice(), head.size)?;
        self.empty(alloc, entry, head, tail, true)?;
        Ok(true)
    }

    /// Leaves a log of no bytes where that may be. `false` where it may not. `Memory` for want of it. Nothing has
    /// changed in either case.
    pub(crate) fn cut(&mut self, alloc: Global) -> Result<bool, Memory>
        requires sound { IsSound self.old }
        ensures done { IfOk result (λ done. done ≡ true → CanEmpty self.old × CutsLog self.old self.new) }
        ensures not { IfOk result (λ done. done ≡ false → (CanEmpty self.old → ⊥) × (self.new ≡ self.old)) }
        ensures sound { IsSound self.new }
        ensures err { OnErr result (self.new ≡ self.old) }
    {
        if !self.may_empty() {
            return Ok(false);
        }
        let head = self.next_head(self.head.salt2);
        let entry = rest_entry(alloc, self.file.as_slice(), head.size)?;
        self.empty(alloc, entry, head, Bytes::new(alloc), false)?;
        Ok(true)
    }

    /// Copies all frames into the database file and leaves a log of no bytes, and the gate held at no mark, where
    /// the last mark has this place and the gate is held there. `false` where that isn't so. `Memory` for want of
    /// it. Nothing has changed in either case.
    pub(crate) fn pass(&mut self, alloc: Global, place: &Place) -> Result<bool, Memory>
        requires sound { IsSound self.old }
        ensures done { IfOk result (λ done.
            done ≡ true → CanPass place.now self.old × TakesPass place.now self.old self.new) }
        ensures not { IfOk result (λ done.
            done ≡ false → (CanPass place.now self.old → ⊥) × (self.new ≡ self.old)) }
        ensures sound { IsSound self.new }
        ensures err { OnErr result (self.new ≡ self.old) }
    {
        let Some(end) = self.end_to_pass(place) else {
            return Ok(false);
        };
        let file = copied_file(alloc, self.file.as_slice(), self.committed.as_slice(), end)?;
        let head = self.next_head(self.head.salt2);
        let entry = rest_entry(alloc, file.as_slice(), head.size)?;
        self.empty(alloc, entry, head, Bytes::new(alloc), false)?;
        self.file = file;
        self.held = Some(0);
        Ok(true)
    }

    /// The end of the last mark, where it has this place and the gate is held there.
    fn end_to_pass(&self, place: &Place) -> Option<u64>
        requires sound { IsSound self.now }
        ensures some { IfSome result (λ end. (can : CanPass place.now self.now) × (can.mark.end ≡ end)) }
        ensures none { result ≡ None → CanPass place.now self.now → ⊥ }
    {
        let end = self.committed.as_slice().len() as u64;
        if end == 0 || self.held != Some(end) {
            return None;
        }
        if self.is_last_at(place) {
            return Some(end);
        }
        None
    }

    /// Whether the last entry has this place.
    fn is_last_at(&self, place: &Place) -> bool
        requires sound { IsSound self.now }
        ensures { (entry : Entry) (at : ℕ) → length self.now.history ≡ at + 1
            → slice_get self.now.history at ≡ Some entry → IsTrue result ↔ (entry.place ≡ place.now) }
    {
        let Some(last) = self.history.get(self.history.len() - 1) else {
            unreachable!()
        };
        last.place == *place
    }

    /// Whether the log may cease to have a commit.
    fn may_empty(&self) -> bool
        requires sound { IsSound self.now }
        ensures { IsTrue result ↔ CanEmpty self.now }
    {
        let bytes = self.committed.as_slice().len();
        if bytes == 0 || self.held.is_some() {
            return false;
        }
        self.copied == bytes as u64 && self.has_exact_file()
    }

    /// Whether the database file has exactly the pages of the last state.
    fn has_exact_file(&self) -> bool
        requires sound { IsSound self.now }
        ensures { (state : State) → last_state None self.now.history ≡ Some state
            → IsTrue result ↔ (length self.now.file ≡ length state.pages * self.now.head.size) }
    {
        let size = self.head.size.get() as usize;
        self.last_pages().checked_mul(size) == Some(self.file.as_slice().len())
    }

    /// How many pages the last state has.
    fn last_pages(&self) -> usize
        requires sound { IsSound self.now }
        ensures { (state : State) → last_state None self.now.history ≡ Some state → result ≡ length state.pages }
    {
        let Some(last) = self.history.get(self.history.len() - 1) else {
            unreachable!()
        };
        last.pages.len()
    }

    /// The header behind that of the log, with this second salt.
    fn next_head(&self, salt2: u32) -> WalHeader
        ensures { IsNextHead salt2 self.now.head result }
    {
        let head = self.head;
        let seq = head.seq.wrapping_add(1);
        let salt1 = head.salt1.wrapping_add(1);
        WalHeader::new(head.order, head.size, seq, salt1, salt2)
    }

    /// The bytes of the log with this header over its own.
    fn begun_anew(&self, alloc: Global, head: &WalHeader) -> Result<Bytes, Memory>
        requires { HasSums head.now }
        ensures { IfOk result (λ bytes. bytes ≡ wal_header_bytes head.now ++ drop 32 (log_of self.now)) }
    {
        let mut header = [0; HEADER_BYTES];
        write_wal_header(head, &mut header);
        let committed = self.committed.as_slice();
        let tail = rest_from(self.tail.as_slice(), self.over as u64);
        let mut bytes = Bytes::new(alloc);
        bytes.extend(&header)?;
        bytes.extend(rest_from(committed, HEADER_BYTES as u64))?;
        bytes.extend(rest_from(tail, HEADER_BYTES.saturating_sub(committed.len()) as u64))?;
        Ok(bytes)
    }

    /// Leaves a log with these bytes behind no mark, of which this is the header, or that of the next. `Memory` for
    /// want of it, and nothing has changed then.
    fn empty(
        &mut self,
        alloc: Global,
        entry: Entry,
        head: WalHeader,
        tail: Bytes,
        headed: bool,
    ) -> Result<(), Memory>
        ensures ok { OnOk result (Empties entry head tail headed self.old self.new) }
        ensures err { OnErr result (self.new ≡ self.old) }
    {
        let twin = self.history.has_twin(&entry);
        let before_log = self.history.len();
        self.history.push(entry)?;
        self.before_log = before_log;
        self.over = 0;
        self.headed = headed;
        self.sums = WalSum {
            s0: head.s0,
            s1: head.s1,
        };
        self.head = head;
        self.copied = 0;
        self.chances = count_if(self.chances, twin);
        self.committed = Bytes::new(alloc);
        self.tail = tail;
        Ok(())
    }
}
