//! The numbers of a file's pages, by its index alone.

ghost use Rattle.std.specs.Prelude.{◌≡◌, ℕ, ◌+◌, ◌*◌, ◌≤◌, ◌<◌, ◌^◌, true, None, length, IfOk, IsErrOf};
ghost use Rattle.std.specs.FinMap as map;
ghost use Rattle.ls_base.specs.Change.{Change};
ghost use Rattle.ltx_reader.specs.declared.read_fault.ReadFault.TheVariants as fault;
ghost use Rattle.ltx_format.specs.FirstFault.{first_failed};
ghost use Rattle.ltx_format.specs.LtxFormat.{IsLtxFile};
ghost use Rattle.ltx_reader.specs.Reader.{OfBytes};
ghost use Rattle.ltx_reader.specs.ReaderCause.{ReadHasCause};
ghost use Rattle.ltx_reader.specs.ReaderGiven.{GivesAtMost};
ghost use Rattle.ltx_reader.specs.ReaderIndex as spec;
ghost use Rattle.ltx_reader.specs.ReaderIndex.{AreStored, stored_count, index_numbers, listed_fault, numbers_from};
ghost use Rattle.ltx_reader.specs.ReaderIndex.{numbers_fault, length_tests};
ghost use Rattle.ltx_reader.specs.ReaderSteps.{Passes};

use crate::block_front::{FRONT_BYTES, four_at};
use crate::page_numbers::{has_all, is_next};
use crate::read_fault::ReadFault;
use crash_disk::Disk;
use ls_base::PageList;
use ltx_format::{LtxFault, LtxHeader};
use std::alloc::Global;

/// The least length of a file with an index: the header, the end of no blocks, an index of no numbers and
/// their count, and the trailer.
const LEAST_BYTES: u64 = 126;

/// The count of the index and the trailer behind it.
const COUNT_AND_TRAILER_BYTES: u64 = 20;

/// The numbers of the pages of the file of this name, which has this header with an index, in the order of
/// the file. Looks at the length of the file and at the index alone: no page is read, and the sum of the file
/// isn't tested. `Fault` with `Short` for a file of fewer than 126 bytes; with `BadIndex` of 0 for a length
/// that isn't that of the count of the index, and where a page is missing that a file from transaction 1 on
/// must have; and with `BadIndex` of the first number that doesn't rise, is 0, is above the commit or is that
/// of the lock page. `Disk` for a fault of the disk. `Memory` for want of it: 4 bytes a number are taken.
pub fn read_index<D: Disk>(
    alloc: Global,
    disk: &mut D,
    name: &str,
    header: &LtxHeader,
) -> Result<PageList, ReadFault>
    requires index { header.now.index ≡ true }
    ensures value { OfBytes (D.told disk.old) name.now (λ bytes. Passes
        (λ list. list ≡ index_numbers header.now bytes) (listed_fault header.now bytes) result) }
    ensures file { OfBytes (D.told disk.old) name.now (λ bytes. (c : Change) → IsLtxFile bytes header.now c
        → Passes (λ list. list ≡ map.keys c.pages) None result) }
    ensures stored { IfOk result (λ list. AreStored header.now list) }
    ensures gave { OfBytes (D.told disk.old) name.now (λ bytes. GivesAtMost (4 * stored_count bytes + 4)
        (D.given disk.old) (D.given disk.new)) }
    ensures unchanged { D.told disk.new ≡ D.told disk.old }
    ensures same_folder { D.folder disk.new ≡ D.folder disk.old }
    ensures cause { ReadHasCause (D.fault_count disk.old) (D.fault_count disk.new) result }
{
    let count = count_of(disk, name, header)?;
    let numbers = numbers_of(alloc, disk, name, header, count)?;
    if !has_all(header, count) {
        return Err(ReadFault::Fault(LtxFault::BadIndex(0)));
    }
    Ok(numbers)
}

/// How many pages the index says that the file has, which its length bears out.
fn count_of<D: Disk>(disk: &mut D, name: &str, header: &LtxHeader) -> Result<u32, ReadFault>
    ensures value { OfBytes (D.told disk.old) name.now (λ bytes. Passes (λ count. count ≡ stored_count bytes)
        (first_failed (length_tests header.now bytes)) result) }
    ensures length { IfOk result (λ count. OfBytes (D.told disk.old) name.now
        (λ bytes. length bytes ≡ spec.indexed_length header.now count)) }
    ensures gave { GivesAtMost 4 (D.given disk.old) (D.given disk.new) }
    ensures unchanged { D.told disk.new ≡ D.told disk.old }
    ensures same_folder { D.folder disk.new ≡ D.folder disk.old }
    ensures no_memory { IsErrOf result fault.Memory → ⊥ }
    ensures cause { ReadHasCause (D.fault_count disk.old) (D.fault_count disk.new) result }
{
    let length = disk.size(name)?.unwrap_or(0);
    if length < LEAST_BYTES {
        return Err(ReadFault::Fault(LtxFault::Short));
    }
    let count = u32::from_be_bytes(four_at(disk, name, length - COUNT_AND_TRAILER_BYTES)?);
    if length != indexed_length(header, count) {
        return Err(ReadFault::Fault(LtxFault::BadIndex(0)));
    }
    Ok(count)
}

/// How long a file with an index is that has so many pages: each has its block, and a number in the index.
fn indexed_length(header: &LtxHeader, count: u32) -> u64
    ensures value { result ≡ spec.indexed_length header.now count }
    ensures bound { result < 2 ^ 50 }
{
    LEAST_BYTES + u64::from(count) * (FRONT_BYTES + 4 + u64::from(header.size.get()))
}

/// Where the index of a file starts that has so many pages.
fn index_offset(header: &LtxHeader, count: u32) -> u64
    ensures value { result ≡ spec.index_offset header.now count }
    ensures bound { result < 2 ^ 50 }
{
    100 + u64::from(count) * (FRONT_BYTES + u64::from(header.size.get())) + FRONT_BYTES
}

/// The numbers of an index of so many.
fn numbers_of<D: Disk>(
    alloc: Global,
    disk: &mut D,
    name: &str,
    header: &LtxHeader,
    count: u32,
) -> Result<PageList, ReadFault>
    ensures value { OfBytes (D.told disk.old) name.now
        (λ bytes. spec.index_offset header.now count + 4 * count ≤ length bytes
        → Passes (λ list. list ≡ numbers_from count bytes (spec.index_offset header.now count))
        (numbers_fault header.now 0 (numbers_from count bytes (spec.index_offset header.now count))) result) }
    ensures stored { IfOk result (λ list. AreStored header.now list) }
    ensures gave { GivesAtMost (4 * count) (D.given disk.old) (D.given disk.new) }
    ensures unchanged { D.told disk.new ≡ D.told disk.old }
    ensures same_folder { D.folder disk.new ≡ D.folder disk.old }
    ensures cause { ReadHasCause (D.fault_count disk.old) (D.fault_count disk.new) result }
{
    let start = index_offset(header, count);
    let mut numbers = PageList::new(alloc);
    let mut last = 0;
    for place in 0..count {
        let number = u32::from_be_bytes(four_at(disk, name, start + 4 * u64::from(place))?);
        if !is_next(header, last, number) {
            return Err(ReadFault::Fault(LtxFault::BadIndex(number)));
        }
        numbers.push(number)?;
        last = number;
    }
    Ok(numbers)
}
