//! A live database that tells nothing and fails from some call on.

ghost use Rattle.std.specs.Prelude.{◌≡◌, None};
ghost use Rattle.ls_base.specs.Fault.{HasCause};

use live_gate::{Attached, Live, LiveFault, Pass, PassFault};
use ls_base::{PageSize, Place};
use std::alloc::Global;

/// How many bytes a read gives at most.
const STRIDE: usize = 200;

/// A log of 2000 fives over a database file of ones. After so many calls each
/// further one fails.
#[derive(Drop)]
pub struct FailingLive {
    pub calls_left: u64,
    pub faults: u64,
    pub next: u64,
}

impl FailingLive {
    fn spend(&mut self) -> Result<(), LiveFault>
        ensures { HasCause self.old.faults self.new.faults result }
    {
        if self.calls_left == 0 {
            self.faults = self.faults.saturating_add(1);
            return Err(LiveFault);
        }
        self.calls_left -= 1;
        Ok(())
    }
}

impl Live for FailingLive {
    ghost use Rattle.std.specs.Prelude.{None, false, refl};

    ghost told = { λ _. None };

    ghost attached = { λ _. None };

    ghost fault_count = { λ live. live.faults };

    ghost is_there = { λ _ _. false };

    ghost content = { λ _ _. None };

    fn attach(
        &mut self,
        _alloc: Global,
        _path: &str,
        _at_rest: bool,
    ) -> Result<Attached, PassFault> {
        self.faults = self.faults.saturating_add(1);
        Err(PassFault::Live(LiveFault))
    }

    fn enter(&mut self) -> Result<(), LiveFault> {
        self.spend()
    }

    fn advance(&mut self, _end: u64) -> Result<(), LiveFault> {
        self.spend()
    }

    fn leave(&mut self) -> Result<(), LiveFault> {
        self.spend()
    }

    fn db_head(&mut self, _into: &mut [u8; 100]) -> Result<usize, LiveFault> {
        self.spend()?;
        Ok(0)
    }

    fn db_size(&mut self) -> Result<u64, LiveFault> {
        self.spend()?;
        Ok(0)
    }

    fn read_page(
        &mut self,
        _size: PageSize,
        _number: u32,
        into: &mut [u8],
    ) -> Result<(), LiveFault> {
        self.spend()?;
        into.fill(1);
        Ok(())
    }

    fn wal_size(&mut self) -> Result<u64, LiveFault> {
        self.spend()?;
        Ok(0)
    }

    fn aim(&mut self, at: u64) -> Result<(), LiveFault> {
        self.spend()?;
        self.next = at;
        Ok(())
    }

    fn read(&mut self, into: &mut [u8]) -> Result<usize, LiveFault> {
        self.spend()?;
        let left = 2000u64.saturating_sub(self.next) as usize;
        let count = into.len().min(STRIDE).min(left);
        into[..count].fill(5);
        self.next = self.next.saturating_add(count as u64);
        Ok(count)
    }

    fn pass(&mut self, _alloc: Global, _place: &Place) -> Result<Pass, PassFault> {
        self.faults = self.faults.saturating_add(1);
        Err(PassFault::Live(LiveFault))
    }

    fn faults(&self) -> u64 {
        self.faults
    }

    ghost stands = { λ _ _ _. refl };
}
