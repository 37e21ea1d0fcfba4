//! A live database that tells nothing and stands still.

ghost use Rattle.std.specs.Prelude.{◌≡◌, ◌≤◌, None};

use live_gate::{Attached, Live, LiveFault, Pass, PassFault};
use ls_base::{PageSize, Place};
use std::alloc::Global;

/// A database file's first 100 bytes, and a log of which so many bytes are there. The pages in the file are zeros.
/// After so many calls each further one fails.
#[derive(Drop)]
pub struct SilentLive {
    pub head: [u8; 100],
    pub log: Vec<u8>,
    pub len: usize,
    pub calls_left: u64,
    /// How many bytes of the log were given.
    pub taken: u64,
    pub next: usize,
}

impl SilentLive {
    fn spend(&mut self) -> Result<(), LiveFault> {
        if self.calls_left == 0 {
            return Err(LiveFault);
        }
        self.calls_left -= 1;
        Ok(())
    }
}

impl Live for SilentLive {
    ghost use Rattle.std.specs.Prelude.{None, false, refl, ◌^◌, ◌-◌};

    ghost told = { λ _. None };

    ghost attached = { λ _. None };

    ghost fault_count = { λ live. 2 ^ 64 - 1 };

    ghost is_there = { λ _ _. false };

    ghost content = { λ _ _. None };

    fn attach(
        &mut self,
        _alloc: Global,
        _path: &str,
        _at_rest: bool,
    ) -> Result<Attached, PassFault> {
        Err(PassFault::Live(LiveFault))
    }

    fn enter(&mut self) -> Result<(), LiveFault> {
        Ok(())
    }

    fn advance(&mut self, _end: u64) -> Result<(), LiveFault> {
        Ok(())
    }

    fn leave(&mut self) -> Result<(), LiveFault> {
        Ok(())
    }

    fn db_head(&mut self, into: &mut [u8; 100]) -> Result<usize, LiveFault> {
        self.spend()?;
        *into = self.head;
        Ok(100)
    }

    fn db_size(&mut self) -> Result<u64, LiveFault> {
        self.spend()?;
        Ok(100)
    }

    fn read_page(
        &mut self,
        _size: PageSize,
        _number: u32,
        into: &mut [u8],
    ) -> Result<(), LiveFault> {
        self.spend()?;
        into.fill(0);
        Ok(())
    }

    fn wal_size(&mut self) -> Result<u64, LiveFault> {
        self.spend()?;
        Ok(self.len as u64)
    }

    fn aim(&mut self, at: u64) -> Result<(), LiveFault> {
        self.spend()?;
        self.next = at as usize;
        Ok(())
    }

    fn read(&mut self, into: &mut [u8]) -> Result<usize, LiveFault> {
        self.spend()?;
        let end = self.len.min(self.log.len());
        let from = self.next.min(end);
        let count = into.len().min(end - from);
        into[..count].copy_from_slice(&self.log[from..from + count]);
        self.next = from + count;
        self.taken = self.taken.saturating_add(count as u64);
        Ok(count)
    }

    fn pass(&mut self, _alloc: Global, _place: &Place) -> Result<Pass, PassFault> {
        Err(PassFault::Live(LiveFault))
    }

    fn faults(&self) -> u64 {
        u64::MAX
    }

    ghost stands = { λ _ _ _. refl };
}
