//! Fixed parts of a file on a disk: the front of a block, and four bytes of a number.

ghost use Rattle.std.specs.Prelude.{◌≡◌, ◌+◌, ◌-◌, ◌<◌, ◌≤◌, ◌^◌, min, length, IfErr, IsErrOf};
ghost use Rattle.ltx_reader.specs.declared.read_fault.ReadFault.TheVariants as fault;
ghost use Rattle.ltx_format.specs.FirstFault.{first_failed, block_tests};
ghost use Rattle.ltx_reader.specs.Reader.{OfBytes};
ghost use Rattle.ltx_reader.specs.ReaderCause.{ReadHasCause};
ghost use Rattle.ltx_reader.specs.ReaderGiven.{GivesAtMost};
ghost use Rattle.ltx_reader.specs.ReaderSteps.{Passes, StandAt, reaches};

use crate::field::check_flags;
use crate::filling::fill;
use crate::read_fault::ReadFault;
use crash_disk::Disk;
use ltx_format::LtxFault;

/// The length in bytes of a block before its page.
pub(crate) const FRONT_BYTES: u64 = 6;

/// The number and the flags of the block at the offset, which are tested.
pub(crate) fn front_at<D: Disk>(disk: &mut D, name: &str, at: u64) -> Result<[u8; 6], ReadFault>
    requires fits { at + 6 < 2 ^ 64 }
    ensures value { OfBytes (D.told disk.old) name.now
        (λ bytes. Passes (StandAt bytes at 6) (first_failed (block_tests bytes at)) result) }
    ensures gave { OfBytes (D.told disk.old) name.now
        (λ bytes. GivesAtMost (min 6 (length bytes - at)) (D.given disk.old) (D.given disk.new)) }
    ensures gave_room { GivesAtMost 6 (D.given disk.old) (D.given disk.new) }
    ensures unchanged { D.told disk.new ≡ D.told disk.old }
    ensures same_folder { D.folder disk.new ≡ D.folder disk.old }
    ensures no_memory { IsErrOf result fault.Memory → ⊥ }
    ensures cause { ReadHasCause (D.fault_count disk.old) (D.fault_count disk.new) result }
{
    let mut front = [0u8; 6];
    let count = fill(disk, name, at, &mut front)?;
    if count < front.len() {
        return Err(ReadFault::Fault(LtxFault::Short));
    }
    check_flags(u32::from(u16::from_be_bytes([front[4], front[5]])))?;
    Ok(front)
}

/// The four bytes at the offset.
pub(crate) fn four_at<D: Disk>(disk: &mut D, name: &str, at: u64) -> Result<[u8; 4], ReadFault>
    requires fits { at + 4 < 2 ^ 64 }
    ensures value { OfBytes (D.told disk.old) name.now
        (λ bytes. Passes (StandAt bytes at 4) (reaches bytes at 4) result) }
    ensures gave { OfBytes (D.told disk.old) name.now
        (λ bytes. GivesAtMost (min 4 (length bytes - at)) (D.given disk.old) (D.given disk.new)) }
    ensures gave_room { GivesAtMost 4 (D.given disk.old) (D.given disk.new) }
    ensures unchanged { D.told disk.new ≡ D.told disk.old }
    ensures same_folder { D.folder disk.new ≡ D.folder disk.old }
    ensures no_memory { IsErrOf result fault.Memory → ⊥ }
    ensures cause { ReadHasCause (D.fault_count disk.old) (D.fault_count disk.new) result }
{
    let mut four = [0u8; 4];
    let count = fill(disk, name, at, &mut four)?;
    if count < four.len() {
        return Err(ReadFault::Fault(LtxFault::Short));
    }
    Ok(four)
}
