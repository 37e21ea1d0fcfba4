//! Bytes gathered for a file.

ghost use Rattle.std.specs.Prelude.{◌≡◌, ◌+◌, ◌≤◌, [], length, replicate, IfOk, OnOk, OnErr};
ghost use Rattle.ls_base.specs.Fault.{HasCause};
ghost use Rattle.crash_disk.specs.Told.{IfTold};
ghost use Rattle.crash_disk.specs.Files.{IsThere};
ghost use Rattle.restore_apply.specs.declared.gathered.TheConstants.{GATHERED_BYTES};
ghost use Rattle.crash_disk.specs.GoesOn.{GoesOn};
ghost use Rattle.restore_apply.specs.Staging.{OnlyAppends, AppendsGathered};

use crash_disk::{Disk, DiskFault};
use std::alloc::{AllocError, Global};
use std::marker::Model;

/// How many bytes are gathered for one call of a disk: as many as the largest page has.
pub const GATHERED_BYTES: usize = 65536;

/// Bytes that are gathered for the end of a file, so that no call is made for each page.
#[derive(Drop)]
pub struct Gathered {
    bytes: Vec<u8>,
}

impl Model for Gathered {
    ghost use Rattle.std.specs.Prelude.{ℕ, ◌≤◌, List, vec_capacity};

    ghost Value = { List ℕ };

    ghost view = { λ gathered. gathered.bytes.items };

    ghost invariant = { λ gathered. 65536 ≤ vec_capacity gathered.bytes };
}

impl Gathered {
    /// Nothing gathered, and room for what one call takes.
    pub fn new(alloc: Global) -> Result<Gathered, AllocError>
        ensures { IfOk result (λ gathered. gathered ≡ []) }
    {
        let bytes = Vec::with_capacity(alloc, GATHERED_BYTES)?;
        Ok(Gathered { bytes })
    }

    /// Appends what is gathered to the file.
    pub fn flush<D: Disk>(&mut self, disk: &mut D, name: &str) -> Result<(), DiskFault>
        requires there { IfTold (D.told disk.old) (λ events. IsThere events name.now) }
        ensures ok { OnOk result (GoesOn (D.told disk.old) (D.told disk.new)
            (AppendsGathered name.now self.old [] [])) }
        ensures empty { OnOk result (self.new ≡ []) }
        ensures err { OnErr result (GoesOn (D.told disk.old) (D.told disk.new) (OnlyAppends name.now)) }
        ensures same_folder { D.folder disk.new ≡ D.folder disk.old }
        ensures cause { HasCause (D.fault_count disk.old) (D.fault_count disk.new) result }
    {
        disk.append(name, self.bytes.as_slice())?;
        self.bytes.clear();
        Ok(())
    }

    fn make_room<D: Disk>(&mut self, disk: &mut D, name: &str, more: usize) -> Result<(), DiskFault>
        requires there { IfTold (D.told disk.old) (λ events. IsThere events name.now) }
        requires small { more ≤ GATHERED_BYTES }
        ensures ok { OnOk result (GoesOn (D.told disk.old) (D.told disk.new)
            (AppendsGathered name.now self.old [] self.new)) }
        ensures room { OnOk result (length self.new + more ≤ GATHERED_BYTES) }
        ensures err { OnErr result (GoesOn (D.told disk.old) (D.told disk.new) (OnlyAppends name.now)) }
        ensures same_folder { D.folder disk.new ≡ D.folder disk.old }
        ensures cause { HasCause (D.fault_count disk.old) (D.fault_count disk.new) result }
    {
        if self.bytes.len() + more > GATHERED_BYTES {
            self.flush(disk, name)?;
        }
        Ok(())
    }

    /// Gathers the bytes, and appends to the file what was gathered before where there is no room for both.
    pub fn put<D: Disk>(&mut self, disk: &mut D, name: &str, bytes: &[u8]) -> Result<(), DiskFault>
        requires there { IfTold (D.told disk.old) (λ events. IsThere events name.now) }
        requires small { length bytes.now ≤ GATHERED_BYTES }
        ensures ok { OnOk result (GoesOn (D.told disk.old) (D.told disk.new)
            (AppendsGathered name.now self.old bytes.now self.new)) }
        ensures err { OnErr result (GoesOn (D.told disk.old) (D.told disk.new) (OnlyAppends name.now)) }
        ensures same_folder { D.folder disk.new ≡ D.folder disk.old }
        ensures cause { HasCause (D.fault_count disk.old) (D.fault_count disk.new) result }
    {
        self.make_room(disk, name, bytes.len())?;
        self.bytes.extend_from_slice(bytes).unwrap();
        Ok(())
    }

    /// Gathers so many zeros, and appends to the file what was gathered before where there is no room for both.
    pub fn put_zeros<D: Disk>(
        &mut self,
        disk: &mut D,
        name: &str,
        count: usize,
    ) -> Result<(), DiskFault>
        requires there { IfTold (D.told disk.old) (λ events. IsThere events name.now) }
        requires small { count ≤ GATHERED_BYTES }
        ensures ok { OnOk result (GoesOn (D.told disk.old) (D.told disk.new) (AppendsGathered name.now self.old
            (replicate count 0) self.new)) }
        ensures err { OnErr result (GoesOn (D.told disk.old) (D.told disk.new) (OnlyAppends name.now)) }
        ensures same_folder { D.folder disk.new ≡ D.folder disk.old }
        ensures cause { HasCause (D.fault_count disk.old) (D.fault_count disk.new) result }
    {
        self.make_room(disk, name, count)?;
        self.bytes.resize(self.bytes.len() + count, 0).unwrap();
        Ok(())
    }
}
