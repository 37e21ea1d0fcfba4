//! The calls of a reader.

ghost use Rattle.std.specs.Prelude.{◌≡◌, ◌≤◌, ◌⊎◌, true, false, OnOk, OnErr};
ghost use Rattle.std.specs.Cmp.Lexicographic.{pointwise};
ghost use Rattle.std.specs.Prelude.{nat_eq};
ghost use Rattle.ls_base.specs.Fault.{Rose};
ghost use Rattle.live_gate.specs.LiveRecord.{is_at_rest};
ghost use Rattle.live_gate.specs.LiveCalls.{found_at};
ghost use Rattle.sim_writer.specs.Calls.{Fails, Goes, PassesNow, Notes};
ghost use Rattle.sim_writer.specs.Commits.{counted};

use crate::commit::count_if;
use crate::passing::passes_by_chance;
use crate::questions::Head;
use crate::rest::{copy_front, fill_page, rest_from};
use crate::sim_live::SimLive;
use live_gate::{Attached, Live, LiveFault, Pass, PassFault};
use ls_base::{Bytes, Memory, PageSize, Place};
use std::alloc::Global;

impl SimLive {
    /// Begins a call: whether it fails, as one does where a fault stands for it, or a stop where it isn't `attach`.
    fn begin_fails(&mut self, attaches: bool) -> bool
        ensures fails { result ≡ true → Fails attaches self.old self.new }
        ensures goes { result ≡ false → Goes attaches self.old self.new }
        ensures later { self.old.faults ≤ self.new.faults }
        ensures rose { result ≡ true → Rose self.old.faults self.new.faults }
    {
        if self.fails || (self.machine.stopped && !attaches) {
            self.fails = false;
            self.faults = count_if(self.faults, true);
            return true;
        }
        false
    }
}

impl SimLive {
    /// Whether each pass is refused now: the script says so, or the last `attach` didn't say that nobody else has
    /// the database open.
    fn refuses(&self) -> bool
        ensures refused { result ≡ true → (self.now.machine.refuses ≡ true) ⊎ (is_at_rest self.now.attached ≡ false) }
        ensures may { result ≡ false
            → (self.now.machine.refuses ≡ false) × (is_at_rest self.now.attached ≡ true) }
    {
        self.machine.refuses || self.path.is_none() || !self.at_rest
    }

    /// Takes the pass where that may be. `Memory` for want of it, and nothing has changed then.
    fn pass_now(&mut self, alloc: Global, place: &Place) -> Result<Pass, Memory>
        ensures does { PassesNow place.now result self.old self.new }
        ensures attached { self.new.attached ≡ self.old.attached }
        ensures name { self.new.name ≡ self.old.name }
    {
        if self.refuses() {
            return Ok(Pass::Kept);
        }
        if !self.machine.pass(alloc, place)? {
            return Ok(Pass::Kept);
        }
        self.asked.passed = count_if(self.asked.passed, true);
        Ok(Pass::Passed)
    }
}

/// Whether a database of this name is at the path.
fn found(path: &[u8], name: &[u8]) -> Attached
    ensures { result ≡ found_at (pointwise nat_eq path.now name.now) }
{
    if path == name {
        return Attached::Found;
    }
    Attached::Absent
}

impl Live for SimLive {
    ghost use Rattle.std.specs.Prelude.{Some, refl};
    ghost use Rattle.std.specs.Prelude.{nat_eq};
    ghost use Rattle.std.specs.Cmp.Lexicographic.{pointwise};
    ghost use Rattle.sim_writer.specs.SimState.{record_of};

    ghost told = { λ s. Some (record_of s) };

    ghost attached = { λ s. s.attached };

    ghost fault_count = { λ s. s.faults };

    ghost is_there = { λ s path. pointwise nat_eq path s.name };

    ghost content = { λ s _. Some (record_of s) };

    fn attach(&mut self, alloc: Global, path: &str, at_rest: bool) -> Result<Attached, PassFault> {
        if self.begin_fails(true) {
            return Err(PassFault::Live(LiveFault));
        }
        let mut at = Bytes::new(alloc);
        if at.extend(path.as_bytes()).is_err() {
            return Err(PassFault::Memory);
        }
        self.path = Some(at);
        self.at_rest = at_rest;
        self.machine.held = None;
        self.machine.stopped = false;
        Ok(found(path.as_bytes(), self.name.as_slice()))
    }

    fn enter(&mut self) -> Result<(), LiveFault> {
        if self.begin_fails(false) {
            return Err(LiveFault);
        }
        self.machine.held = Some(self.machine.copied);
        Ok(())
    }

    fn advance(&mut self, end: u64) -> Result<(), LiveFault> {
        if self.begin_fails(false) {
            return Err(LiveFault);
        }
        if self.machine.chances == 0 {
            self.machine.held = Some(end);
        }
        Ok(())
    }

    fn leave(&mut self) -> Result<(), LiveFault> {
        if self.begin_fails(false) {
            return Err(LiveFault);
        }
        self.machine.held = None;
        Ok(())
    }

    fn db_head(&mut self, into: &mut [u8; 100]) -> Result<usize, LiveFault> {
        if self.begin_fails(false) {
            return Err(LiveFault);
        }
        let count = copy_front(self.machine.file.as_slice(), into);
        self.asked.head = Some(Head {
            bytes: *into,
            count,
        });
        Ok(count)
    }

    fn db_size(&mut self) -> Result<u64, LiveFault> {
        if self.begin_fails(false) {
            return Err(LiveFault);
        }
        let size = self.machine.file.as_slice().len() as u64;
        self.asked.db_size = Some(size);
        Ok(size)
    }

    fn read_page(&mut self, size: PageSize, number: u32, into: &mut [u8]) -> Result<(), LiveFault> {
        if self.begin_fails(false) {
            return Err(LiveFault);
        }
        let at = u64::from(number - 1) * u64::from(size.get());
        fill_page(rest_from(self.machine.file.as_slice(), at), into);
        Ok(())
    }

    fn wal_size(&mut self) -> Result<u64, LiveFault> {
        if self.begin_fails(false) {
            return Err(LiveFault);
        }
        let size = self.machine.log_size();
        self.asked.wal_size = Some(size);
        Ok(size)
    }

    fn aim(&mut self, at: u64) -> Result<(), LiveFault> {
        if self.begin_fails(false) {
            return Err(LiveFault);
        }
        self.asked.aimed = at;
        self.asked.answered = Bytes::new(self.alloc);
        Ok(())
    }

    fn read(&mut self, into: &mut [u8]) -> Result<usize, LiveFault> {
        if self.begin_fails(false) {
            return Err(LiveFault);
        }
        let answered = self.asked.answered.as_slice().len() as u64;
        let at = self.asked.aimed.saturating_add(answered);
        let count = self.machine.read_log(at, into);
        match self.note(&into[..count]) {
            Err(Memory) => Err(self.starve()),
            Ok(()) => Ok(count),
        }
    }

    fn pass(&mut self, alloc: Global, place: &Place) -> Result<Pass, PassFault> {
        let fails = self.begin_fails(false);
        self.asked.passes = count_if(self.asked.passes, true);
        if fails {
            return Err(PassFault::Live(LiveFault));
        }
        match self.pass_now(alloc, place) {
            Ok(pass) => Ok(pass),
            Err(Memory) => Err(PassFault::Memory),
        }
    }

    fn faults(&self) -> u64 {
        self.faults
    }

    ghost stands = { λ _ _ _. refl };
}

impl SimLive {
    /// Notes what `read` answers, and counts where it passes for committed bytes by chance. `Memory` for want of
    /// it, and nothing has changed then.
    fn note(&mut self, got: &[u8]) -> Result<(), Memory>
        ensures ok { OnOk result (Notes got.now self.old self.new) }
        ensures err { OnErr result (self.new ≡ self.old) }
    {
        let chance = passes_by_chance(
            self.alloc,
            self.machine.committed.as_slice(),
            self.asked.aimed,
            self.asked.answered.as_slice(),
            got,
        )?;
        self.asked.answered.extend(got)?;
        self.asked.gave_none = got.is_empty();
        self.asked.taken = self.asked.taken.saturating_add(got.len() as u64);
        self.machine.chances = count_if(self.machine.chances, chance);
        Ok(())
    }

    /// Counts that the call at hand fails for want of memory.
    fn starve(&mut self) -> LiveFault
        ensures { self.new ≡ record self.old { faults = counted self.old.faults; starved = counted self.old.starved } }
    {
        self.faults = count_if(self.faults, true);
        self.starved = count_if(self.starved, true);
        LiveFault
    }
}
