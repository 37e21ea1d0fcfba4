//! A live database of bytes in memory, which tells nothing.

ghost use Rattle.std.specs.Prelude.{◌≡◌, ◌≤◌, None, length};

use live_gate::{Attached, Live, LiveFault, Pass, PassFault};
use ls_base::{PageSize, Place};
use std::alloc::Global;

/// A database file, and a log of which so many bytes are there.
#[derive(Drop)]
pub struct BytesLive {
    pub file: Vec<u8>,
    pub log: Vec<u8>,
    pub len: usize,
    pub next: usize,
}

/// Copies what the bytes have from an offset on, as much as there is room for, and answers how much that was.
fn copy_from(bytes: &[u8], at: usize, into: &mut [u8]) -> usize
    ensures { result ≤ length into.old }
{
    let from = at.min(bytes.len());
    let count = into.len().min(bytes.len() - from);
    into[..count].copy_from_slice(&bytes[from..from + count]);
    count
}

impl Live for BytesLive {
    ghost use Rattle.std.specs.Prelude.{None, false, refl, ◌^◌, ◌-◌};

    ghost told = { λ _. None };

    ghost attached = { λ _. None };

    ghost fault_count = { λ live. 2 ^ 64 - 1 };

    ghost is_there = { λ _ _. false };

    ghost content = { λ _ _. None };

    fn attach(
        &mut self,
        _alloc: Global,
        _path: &str,
        _at_rest: bool,
    ) -> Result<Attached, PassFault> {
        Err(PassFault::Live(LiveFault))
    }

    fn enter(&mut self) -> Result<(), LiveFault> {
        Ok(())
    }

    fn advance(&mut self, _end: u64) -> Result<(), LiveFault> {
        Ok(())
    }

    fn leave(&mut self) -> Result<(), LiveFault> {
        Ok(())
    }

    fn db_head(&mut self, into: &mut [u8; 100]) -> Result<usize, LiveFault> {
        Ok(copy_from(&self.file, 0, into))
    }

    fn db_size(&mut self) -> Result<u64, LiveFault> {
        Ok(self.file.len() as u64)
    }

    fn read_page(&mut self, size: PageSize, number: u32, into: &mut [u8]) -> Result<(), LiveFault> {
        into.fill(0);
        let at = (number as usize).saturating_sub(1) * size.get() as usize;
        copy_from(&self.file, at, into);
        Ok(())
    }

    fn wal_size(&mut self) -> Result<u64, LiveFault> {
        Ok(self.len as u64)
    }

    fn aim(&mut self, at: u64) -> Result<(), LiveFault> {
        self.next = at as usize;
        Ok(())
    }

    fn read(&mut self, into: &mut [u8]) -> Result<usize, LiveFault> {
        let end = self.len.min(self.log.len());
        let count = copy_from(&self.log[..end], self.next, into);
        self.next = self.next.min(end) + count;
        Ok(count)
    }

    fn pass(&mut self, _alloc: Global, _place: &Place) -> Result<Pass, PassFault> {
        Err(PassFault::Live(LiveFault))
    }

    fn faults(&self) -> u64 {
        u64::MAX
    }

    ghost stands = { λ _ _ _. refl };
}
