//! A stop of the live machine.

ghost use Rattle.std.specs.Prelude.{◌≡◌, ℕ, ◌+◌, ◌<◌, ◌++◌, true, false, None, length, take, drop, IfOk, IfSome, OnOk};
ghost use Rattle.std.specs.Prelude.{OnErr};
ghost use Rattle.wal_frames.specs.WalFormat.{HasSums};
ghost use Rattle.sim_writer.specs.Stopping.{CanStop, StopsAt, KeepsTo, FallsTo, left_behind};
ghost use Rattle.sim_writer.specs.Sound.{IsSound};

use crate::commit::count_if;
use crate::history::{History, copied_entry};
use crate::machine::Machine;
use ls_base::{Bytes, Memory, Place};
use ls_sums::WalSum;
use std::alloc::Global;
use wal_frames::write_wal_header;

/// The length of a log's header in bytes.
const HEADER_BYTES: usize = 32;

/// What a stop leaves of the log: where the mark ends that is kept, and the sums there.
#[derive(Debug, Drop)]
pub(crate) struct Kept {
    pub(crate) end: u64,
    pub(crate) sums: WalSum,
}

impl Machine {
    /// Stops the machine where that may be: the log falls back to the mark of this number, or to nothing for 0, and
    /// the tail stands behind. `false` where it may not. `Memory` for want of it. Nothing has changed in either case.
    pub(crate) fn stop(&mut self, alloc: Global, number: u32, tail: &[u8]) -> Result<bool, Memory>
        requires sound { IsSound self.old }
        ensures done { IfOk result (λ done.
            done ≡ true → CanStop number self.old × StopsAt number tail.now self.old self.new) }
        ensures not { IfOk result (λ done. done ≡ false → (CanStop number self.old → ⊥) × (self.new ≡ self.old)) }
        ensures sound { IsSound self.new }
        ensures err { OnErr result (self.new ≡ self.old) }
    {
        let Some(kept) = self.kept(number) else {
            return Ok(false);
        };
        let again = self.again(alloc, number)?;
        let left = self.left_behind(alloc, number, tail)?;
        let committed = self.front_to(alloc, kept.end)?;
        self.fall_to(committed, again, left, kept.sums)?;
        Ok(true)
    }

    /// What a stop at the mark of this number leaves of the log, where that may be.
    fn kept(&self, number: u32) -> Option<Kept>
        requires sound { IsSound self.now }
        ensures some { IfSome result (λ kept. KeepsTo number self.now kept.end kept.sums) }
        ensures none { result ≡ None → CanStop number self.now → ⊥ }
    {
        if number == 0 {
            return self.kept_at_none();
        }
        let entry = self.entry_of(number)?;
        let Place::Wal { end, s0, s1, .. } = entry.place else {
            unreachable!()
        };
        if self.copied > end {
            return None;
        }
        Some(Kept {
            end,
            sums: WalSum { s0, s1 },
        })
    }

    /// The same where no mark is kept.
    fn kept_at_none(&self) -> Option<Kept>
        ensures some { IfSome result (λ kept. KeepsTo 0 self.now kept.end kept.sums) }
        ensures none { result ≡ None → CanStop 0 self.now → ⊥ }
    {
        if self.copied > 0 {
            return None;
        }
        let head = self.head;
        Some(Kept {
            end: 0,
            sums: WalSum {
                s0: head.s0,
                s1: head.s1,
            },
        })
    }

    /// Copies of the entry before the log's first mark and of those of as many marks.
    fn again(&self, alloc: Global, number: u32) -> Result<History, Memory>
        requires within { self.now.before_log + number < length self.now.history }
        ensures { IfOk result (λ again. again ≡ take (number + 1) (drop self.now.before_log self.now.history)) }
    {
        let mut again = History::new(alloc);
        let end = self.before_log.saturating_add(number as usize + 1);
        for at in self.before_log..end.min(self.history.len()) {
            let Some(entry) = self.history.get(at) else {
                unreachable!()
            };
            again.push(copied_entry(alloc, entry)?)?;
        }
        Ok(again)
    }

    /// What stands behind the mark of this number after a stop with this tail.
    fn left_behind(&self, alloc: Global, number: u32, tail: &[u8]) -> Result<Bytes, Memory>
        requires { HasSums self.now.head }
        ensures { IfOk result (λ left. left ≡ left_behind number self.now.headed self.now.head tail.now) }
    {
        let mut left = Bytes::new(alloc);
        if number == 0 && self.headed {
            let mut header = [0; HEADER_BYTES];
            write_wal_header(&self.head, &mut header);
            left.extend(&header)?;
        }
        left.extend(tail)?;
        Ok(left)
    }

    /// The bytes of the log up to the offset.
    fn front_to(&self, alloc: Global, end: u64) -> Result<Bytes, Memory>
        ensures { IfOk result (λ bytes. bytes ≡ take end self.now.committed) }
    {
        let committed = self.committed.as_slice();
        let end = (end as usize).min(committed.len());
        let mut bytes = Bytes::new(alloc);
        bytes.extend(&committed[..end])?;
        Ok(bytes)
    }

    /// Leaves this committed part, with these sums at its end, and these bytes behind it. The entries come once more.
    /// `Memory` for want of it, and nothing has changed then.
    fn fall_to(
        &mut self,
        committed: Bytes,
        again: History,
        left: Bytes,
        sums: WalSum,
    ) -> Result<(), Memory>
        ensures ok { OnOk result (FallsTo committed again left sums self.old self.new) }
        ensures err { OnErr result (self.new ≡ self.old) }
    {
        let twins = self.history.have_twins(&again);
        let before_log = self.history.len();
        self.history.append(again)?;
        self.before_log = before_log;
        self.over = 0;
        self.sums = sums;
        self.held = None;
        self.stopped = true;
        self.chances = count_if(self.chances, twins);
        self.committed = committed;
        self.tail = left;
        Ok(())
    }
}
