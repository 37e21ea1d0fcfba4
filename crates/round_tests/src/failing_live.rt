//! A live database that fails.

ghost use Rattle.std.specs.Prelude.{◌≡◌, None};

use live_gate::{Attached, Live, LiveFault, Pass, PassFault, StillLive};
use ls_base::{PageSize, Place};
use std::alloc::Global;

/// One that stands still and tells nothing. After so many calls each further one fails.
#[derive(Drop)]
pub struct FailingLive {
    pub live: StillLive,
    pub calls_left: u64,
}

impl FailingLive {
    fn spend(&mut self) -> Result<(), LiveFault> {
        if self.calls_left == 0 {
            return Err(LiveFault);
        }
        self.calls_left -= 1;
        Ok(())
    }
}

impl Live for FailingLive {
    ghost use Rattle.std.specs.Prelude.{None, false, refl, ◌^◌, ◌-◌};

    ghost told = { λ _. None };

    ghost attached = { λ _. None };

    ghost fault_count = { λ _. 2 ^ 64 - 1 };

    ghost is_there = { λ _ _. false };

    ghost content = { λ _ _. None };

    fn attach(
        &mut self,
        _alloc: Global,
        _path: &str,
        _at_rest: bool,
    ) -> Result<Attached, PassFault> {
        Err(PassFault::Live(LiveFault))
    }

    fn enter(&mut self) -> Result<(), LiveFault> {
        self.spend()
    }

    fn advance(&mut self, _end: u64) -> Result<(), LiveFault> {
        self.spend()
    }

    fn leave(&mut self) -> Result<(), LiveFault> {
        self.spend()
    }

    fn db_head(&mut self, into: &mut [u8; 100]) -> Result<usize, LiveFault> {
        self.spend()?;
        self.live.db_head(into)
    }

    fn db_size(&mut self) -> Result<u64, LiveFault> {
        self.spend()?;
        self.live.db_size()
    }

    fn read_page(&mut self, size: PageSize, number: u32, into: &mut [u8]) -> Result<(), LiveFault> {
        self.spend()?;
        self.live.read_page(size, number, into)
    }

    fn wal_size(&mut self) -> Result<u64, LiveFault> {
        self.spend()?;
        self.live.wal_size()
    }

    fn aim(&mut self, at: u64) -> Result<(), LiveFault> {
        self.spend()?;
        self.live.aim(at)
    }

    fn read(&mut self, into: &mut [u8]) -> Result<usize, LiveFault> {
        self.spend()?;
        self.live.read(into)
    }

    fn pass(&mut self, _alloc: Global, _place: &Place) -> Result<Pass, PassFault> {
        Err(PassFault::Live(LiveFault))
    }

    fn faults(&self) -> u64 {
        u64::MAX
    }

    ghost stands = { λ _ _ _. refl };
}
