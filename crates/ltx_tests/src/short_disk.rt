//! A disk that reads short.

ghost use Rattle.std.specs.Prelude.{None, OnOk, refl};
ghost use Rattle.ls_base.specs.Fault.{HasCause};

use crash_disk::{Disk, DiskFault, NameList, NamesFault};
use std::alloc::Global;

/// One file under every name, of which a reading gives a few bytes at a time. It doesn't tell its content, and each
/// call but `size` and `read_at` fails.
#[derive(Drop)]
pub struct ShortDisk {
    pub bytes: Vec<u8>,
    /// What `size` answers: the file may have shrunk since.
    pub length: u32,
    /// The most bytes that a reading gives.
    pub most: usize,
    pub faults: u64,
}

/// The answer to a call that no reader makes: a fault, which is counted.
fn refused(faults: &mut u64) -> Result<(), DiskFault>
    ensures none { OnOk result ⊥ }
    ensures cause { HasCause faults.old faults.new result }
{
    *faults = faults.saturating_add(1);
    Err(DiskFault)
}

impl Disk for ShortDisk {
    ghost told = { λ _. None };

    ghost folder = { λ _. None };

    ghost fault_count = { λ disk. disk.faults };

    ghost content = { λ _ _. None };

    ghost given = { λ _. None };

    fn attach(&mut self, _alloc: Global, _path: &str) -> Result<(), NamesFault> {
        Err(NamesFault::Memory)
    }

    fn names(&mut self, _alloc: Global) -> Result<NameList, NamesFault> {
        Err(NamesFault::Memory)
    }

    fn size(&mut self, _name: &str) -> Result<Option<u64>, DiskFault> {
        Ok(Some(u64::from(self.length)))
    }

    fn read_at(&mut self, _name: &str, at: u64, into: &mut [u8]) -> Result<usize, DiskFault> {
        let rest = self.bytes.get(at as usize..).unwrap_or(&[]);
        let count = rest.len().min(into.len()).min(self.most);
        into[..count].copy_from_slice(&rest[..count]);
        Ok(count)
    }

    fn create(&mut self, _name: &str) -> Result<(), DiskFault> {
        refused(&mut self.faults)
    }

    fn append(&mut self, _name: &str, _bytes: &[u8]) -> Result<(), DiskFault> {
        refused(&mut self.faults)
    }

    fn write_at(&mut self, _name: &str, _at: u64, _bytes: &[u8]) -> Result<(), DiskFault> {
        refused(&mut self.faults)
    }

    fn cut(&mut self, _name: &str, _size: u64) -> Result<(), DiskFault> {
        refused(&mut self.faults)
    }

    fn sync(&mut self, _name: &str) -> Result<(), DiskFault> {
        refused(&mut self.faults)
    }

    fn rename(&mut self, _from: &str, _to: &str) -> Result<(), DiskFault> {
        refused(&mut self.faults)
    }

    fn remove(&mut self, _name: &str) -> Result<(), DiskFault> {
        refused(&mut self.faults)
    }

    fn sync_names(&mut self) -> Result<(), DiskFault> {
        refused(&mut self.faults)
    }

    fn faults(&self) -> u64 {
        self.faults
    }

    ghost stands = { λ _ _ _. refl };

    ghost counts = { λ _. refl };
}
