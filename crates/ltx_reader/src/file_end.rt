//! The end of a file on a disk, behind its blocks.

ghost use Rattle.std.specs.Prelude.{◌≡◌, ℕ, List, ◌+◌, ◌-◌, ◌*◌, ◌<◌, ◌≤◌, ◌^◌, min, length, IfOk, IsErrOf};
ghost use Rattle.ltx_reader.specs.declared.read_fault.ReadFault.TheVariants as fault;
ghost use Rattle.ltx_format.specs.FirstFault.{first_failed, trailer_tests, entry_tests, index_fault, tail_fault};
ghost use Rattle.ltx_format.specs.FirstFault.{end_fault, is_whole};
ghost use Rattle.ltx_format.specs.LtxFormat.{HasHeader};
ghost use Rattle.ltx_reader.specs.Reader as spec;
ghost use Rattle.ltx_reader.specs.Reader.{OfBytes, AreBytes, IsSummed, next_block};
ghost use Rattle.ltx_reader.specs.ReaderCause.{ReadHasCause};
ghost use Rattle.ltx_reader.specs.ReaderGiven.{GivesAtMost, bytes_again};
ghost use Rattle.ltx_reader.specs.ReaderSteps.{Passes, StandAt, IsTrailer, HasFault};

use crate::block_front::{FRONT_BYTES, four_at};
use crate::field::u64_at;
use crate::filling::fill;
use crate::page_numbers::has_all;
use crate::read_fault::ReadFault;
use crate::reader::LtxReader;
use crash_disk::Disk;
use ls_sums::Crc64;
use ltx_format::LtxFault;

/// The bit that is set in each sum of a file.
const TOP_BIT: u64 = 1 << 63;

impl LtxReader {
    /// The name of the file.
    pub(crate) fn path(&self) -> &str
        ensures { result.now ≡ self.now.name }
    {
        self.name.as_str()
    }

    /// The offset of the block before which `count` others stand.
    pub(crate) fn block_offset(&self, count: u32) -> u64
        ensures value { result ≡ spec.block_offset self.now.header count }
        ensures bound { result < 2 ^ 50 }
    {
        100 + u64::from(count) * (FRONT_BYTES + u64::from(self.header.size.get()))
    }

    /// Tests all that stands behind the blocks: that none is missing, the index where the header says that
    /// there is one, and the trailer. The sum goes up to the 6 zero bytes that end the blocks, and takes
    /// these in.
    pub(crate) fn check_end<D: Disk>(&self, disk: &mut D, sum: Crc64) -> Result<(), ReadFault>
        ensures value { OfBytes (D.told disk.old) self.now.name (λ bytes. HasHeader bytes self.now.header
            → IsSummed bytes (next_block self.now + 6) sum
            → Passes (λ _. AreBytes bytes) (end_fault bytes self.now.count (next_block self.now)) result) }
        ensures gave { OfBytes (D.told disk.old) self.now.name (λ bytes. HasHeader bytes self.now.header
            → IsSummed bytes (next_block self.now + 6) sum
            → GivesAtMost (length bytes - (next_block self.now + 6) + bytes_again self.now.header self.now.count)
            (D.given disk.old) (D.given disk.new)) }
        ensures unchanged { D.told disk.new ≡ D.told disk.old }
        ensures same_folder { D.folder disk.new ≡ D.folder disk.old }
        ensures no_memory { IsErrOf result fault.Memory → ⊥ }
        ensures cause { ReadHasCause (D.fault_count disk.old) (D.fault_count disk.new) result }
    {
        if !self.has_all() {
            return Err(ReadFault::Fault(LtxFault::BadOrder(0)));
        }
        self.check_tail(disk, self.block_offset(self.count) + FRONT_BYTES, sum)
    }

    /// Whether no page is missing: a file from transaction 1 on has every page but the lock page.
    fn has_all(&self) -> bool
        ensures { (bytes : List ℕ) → HasHeader bytes self.now.header → result ≡ is_whole bytes self.now.count }
    {
        has_all(&self.header, self.count)
    }

    /// Tests the index at the offset, where the header says that there is one, and the trailer.
    fn check_tail<D: Disk>(&self, disk: &mut D, at: u64, sum: Crc64) -> Result<(), ReadFault>
        requires at { at ≡ next_block self.now + 6 }
        requires small { at < 2 ^ 51 }
        ensures value { OfBytes (D.told disk.old) self.now.name (λ bytes. HasHeader bytes self.now.header
            → IsSummed bytes at sum
            → Passes (λ _. AreBytes bytes) (tail_fault bytes self.now.count at) result) }
        ensures gave { OfBytes (D.told disk.old) self.now.name (λ bytes. HasHeader bytes self.now.header
            → IsSummed bytes at sum
            → GivesAtMost (length bytes - at + bytes_again self.now.header self.now.count) (D.given disk.old)
            (D.given disk.new)) }
        ensures unchanged { D.told disk.new ≡ D.told disk.old }
        ensures same_folder { D.folder disk.new ≡ D.folder disk.old }
        ensures no_memory { IsErrOf result fault.Memory → ⊥ }
        ensures cause { ReadHasCause (D.fault_count disk.old) (D.fault_count disk.new) result }
    {
        if !self.header.index {
            return check_trailer(disk, self.path(), at, sum);
        }
        let sum = self.check_index(disk, at, sum)?;
        let at = at + 4 * u64::from(self.count) + 4;
        check_trailer(disk, self.path(), at, sum)
    }

    /// Tests the index at the offset, and takes it into the sum.
    fn check_index<D: Disk>(&self, disk: &mut D, at: u64, sum: Crc64) -> Result<Crc64, ReadFault>
        requires at { at ≡ next_block self.now + 6 }
        requires small { at < 2 ^ 51 }
        ensures value { OfBytes (D.told disk.old) self.now.name (λ bytes. HasHeader bytes self.now.header
            → IsSummed bytes at sum
            → Passes (IsSummed bytes (at + 4 * self.now.count + 4)) (index_fault self.now.count bytes 0 at) result) }
        ensures gave { OfBytes (D.told disk.old) self.now.name (λ bytes. HasHeader bytes self.now.header
            → IsSummed bytes at sum
            → GivesAtMost (length bytes - at + 4 * self.now.count) (D.given disk.old) (D.given disk.new)) }
        ensures gave_index { IfOk result (λ _. GivesAtMost (8 * self.now.count + 4) (D.given disk.old)
            (D.given disk.new)) }
        ensures unchanged { D.told disk.new ≡ D.told disk.old }
        ensures same_folder { D.folder disk.new ≡ D.folder disk.old }
        ensures no_memory { IsErrOf result fault.Memory → ⊥ }
        ensures cause { ReadHasCause (D.fault_count disk.old) (D.fault_count disk.new) result }
    {
        let mut sum = sum;
        for place in 0..self.count {
            let entry = self.entry_at(disk, place, at + 4 * u64::from(place))?;
            sum.over(&entry);
        }
        let count = four_at(disk, self.path(), at + 4 * u64::from(self.count))?;
        if u32::from_be_bytes(count) != self.count {
            return Err(ReadFault::Fault(LtxFault::BadIndex(0)));
        }
        sum.over(&count);
        Ok(sum)
    }

    /// The entry of the index at the offset, which is the number of the block before which `place` others
    /// stand.
    fn entry_at<D: Disk>(&self, disk: &mut D, place: u32, at: u64) -> Result<[u8; 4], ReadFault>
        requires place { place < self.now.count }
        requires fits { at + 4 < 2 ^ 64 }
        ensures value { OfBytes (D.told disk.old) self.now.name (λ bytes. HasHeader bytes self.now.header
            → next_block self.now ≤ length bytes
            → Passes (StandAt bytes at 4) (first_failed (entry_tests bytes place at)) result) }
        ensures gave { OfBytes (D.told disk.old) self.now.name
            (λ bytes. GivesAtMost (min 4 (length bytes - at) + 4) (D.given disk.old) (D.given disk.new)) }
        ensures gave_entry { GivesAtMost 8 (D.given disk.old) (D.given disk.new) }
        ensures unchanged { D.told disk.new ≡ D.told disk.old }
        ensures same_folder { D.folder disk.new ≡ D.folder disk.old }
        ensures no_memory { IsErrOf result fault.Memory → ⊥ }
        ensures cause { ReadHasCause (D.fault_count disk.old) (D.fault_count disk.new) result }
    {
        let entry = four_at(disk, self.path(), at)?;
        let number = four_at(disk, self.path(), self.block_offset(place))?;
        let found = u32::from_be_bytes(entry);
        if found != u32::from_be_bytes(number) {
            return Err(ReadFault::Fault(LtxFault::BadIndex(found)));
        }
        Ok(entry)
    }
}

/// Tests the trailer at the offset, up to which the sum goes, and that nothing stands behind it.
fn check_trailer<D: Disk>(disk: &mut D, name: &str, at: u64, sum: Crc64) -> Result<(), ReadFault>
    requires fits { at + 17 < 2 ^ 64 }
    ensures value { OfBytes (D.told disk.old) name.now (λ bytes. IsSummed bytes at sum
        → Passes (λ _. AreBytes bytes) (first_failed (trailer_tests bytes at)) result) }
    ensures gave { OfBytes (D.told disk.old) name.now
        (λ bytes. GivesAtMost (min 17 (length bytes - at)) (D.given disk.old) (D.given disk.new)) }
    ensures unchanged { D.told disk.new ≡ D.told disk.old }
    ensures same_folder { D.folder disk.new ≡ D.folder disk.old }
    ensures no_memory { IsErrOf result fault.Memory → ⊥ }
    ensures cause { ReadHasCause (D.fault_count disk.old) (D.fault_count disk.new) result }
{
    // The trailer, and the byte behind it, which must not be there.
    let mut trailer = [0u8; 17];
    let count = fill(disk, name, at, &mut trailer)?;
    trailer_of(&trailer[..count], sum)?;
    Ok(())
}

/// Tests the trailer, which begins with the post-apply checksum 0. Behind it stands the sum of what the
/// running sum took in and of that checksum, and then nothing.
fn trailer_of(trailer: &[u8], sum: Crc64) -> Result<(), LtxFault>
    ensures { (bytes : List ℕ) (at : ℕ) → IsSummed bytes at sum → IsTrailer bytes at trailer.now
        → HasFault (first_failed (trailer_tests bytes at)) result }
{
    let (check, behind) = u64_at(trailer)?;
    let (kept, rest) = u64_at(behind)?;
    if check != 0 {
        return Err(LtxFault::BadReserved);
    }
    let mut sum = sum;
    sum.over(&trailer[..8]);
    let found = sum.finish() | TOP_BIT;
    if kept != found {
        return Err(LtxFault::BadSum { kept, found });
    }
    if !rest.is_empty() {
        return Err(LtxFault::Extra);
    }
    Ok(())
}
