//! The block that a reader comes to next.

ghost use Rattle.std.specs.Prelude.{◌≡◌, ℕ, List, ◌+◌, ◌-◌, ◌≤◌, ◌<◌, ◌++◌, Some, Ok, length, IfOk, IsErrOf};
ghost use Rattle.crash_disk.specs.declared.fault.DiskFault.{DiskFault};
ghost use Rattle.ltx_reader.specs.declared.progress.Progress.TheVariants as progress;
ghost use Rattle.ltx_reader.specs.declared.read_fault.ReadFault.TheVariants as fault;
ghost use Rattle.ls_sums.specs.Crc64.{IsBehind};
ghost use Rattle.ltx_format.specs.FirstFault as spec;
ghost use Rattle.ltx_format.specs.LtxFormat.{HasHeader};
ghost use Rattle.ltx_reader.specs.Reader.{OfBytes, IsReaderOf, IsFaultlessTo, HasSameFile, StaysBeforePage, Stops};
ghost use Rattle.ltx_reader.specs.Reader.{Waits, next_block};
ghost use Rattle.ltx_reader.specs.ReaderCause.{ReadHasCause};
ghost use Rattle.ltx_reader.specs.ReaderGiven.{GivesAtMost, bytes_again, read_so_far, bytes_left};
ghost use Rattle.ltx_reader.specs.ReaderSteps.{Passes, IsNext, StandAt, IsAboveOrEnd, IfAnnounced, stopped};
ghost use Rattle.ltx_reader.specs.ReaderSteps.{after_page_read, next_fault, reaches};

use crate::block_front::{FRONT_BYTES, front_at};
use crate::filling::fill;
use crate::page_numbers::is_next;
use crate::progress::Progress;
use crate::read_fault::ReadFault;
use crate::reader::LtxReader;
use crash_disk::Disk;
use ls_sums::Crc64;
use ltx_format::LtxFault;

impl LtxReader {
    /// Reads the number of the next block, and where it is 0 the end of the file.
    pub(crate) fn go_on<D: Disk>(&mut self, disk: &mut D) -> Result<Option<u32>, ReadFault>
        requires going { self.old.progress ≡ progress.Going }
        ensures number { OfBytes (D.told disk.old) self.old.name (λ bytes. IsReaderOf bytes self.old
            → IfAnnounced bytes self.old self.new result) }
        ensures keeps { OfBytes (D.told disk.old) self.old.name (λ bytes. IsReaderOf bytes self.old
            → IsReaderOf bytes self.new) }
        ensures same_file { HasSameFile self.old self.new }
        ensures stays { StaysBeforePage self.old self.new }
        ensures stops { Stops self.new.progress result }
        ensures waits { Waits self.new.progress result }
        ensures still { (why : DiskFault) → IsErrOf result (fault.Disk why) → self.new ≡ self.old }
        ensures gave { OfBytes (D.told disk.old) self.old.name (λ bytes. IsReaderOf bytes self.old
            → GivesAtMost (bytes_left bytes self.old) (D.given disk.old) (D.given disk.new)) }
        ensures gave_number { (n : ℕ) → result ≡ Ok (Some n) → GivesAtMost (read_so_far self.new - read_so_far self.old)
            (D.given disk.old) (D.given disk.new) }
        ensures unchanged { D.told disk.new ≡ D.told disk.old }
        ensures same_folder { D.folder disk.new ≡ D.folder disk.old }
        ensures cause { ReadHasCause (D.fault_count disk.old) (D.fault_count disk.new) result }
    {
        let (number, sum) = match self.next_number(disk) {
            Ok(read) => read,
            Err(fault) => return Err(self.stopped_by(fault)),
        };
        if number == 0 {
            self.end();
            return Ok(None);
        }
        self.wait(number, sum);
        Ok(Some(number))
    }

    /// The file has ended.
    fn end(&mut self)
        ensures { self.new ≡ record self.old { progress = progress.Ended } }
    {
        self.progress = Progress::Ended;
    }

    /// The number of the next page was read, and the sum goes up to the page.
    fn wait(&mut self, number: u32, sum: Crc64)
        requires above { self.old.last < number }
        ensures { self.new ≡ record self.old { sum = sum; progress = progress.AtNumber number } }
    {
        self.sum = sum;
        self.progress = Progress::AtNumber(number);
    }

    /// The number of the next block, with the sum up to its page; 0 where the file ends, which is then
    /// tested to its end.
    fn next_number<D: Disk>(&self, disk: &mut D) -> Result<(u32, Crc64), ReadFault>
        requires going { self.now.progress ≡ progress.Going }
        ensures value { OfBytes (D.told disk.old) self.now.name (λ bytes. HasHeader bytes self.now.header
            → IsFaultlessTo bytes self.now → Passes (IsNext bytes self.now) (next_fault bytes self.now
            (next_block self.now)) result) }
        ensures above { IfOk result (λ read. IsAboveOrEnd self.now.last read.0) }
        ensures gave { OfBytes (D.told disk.old) self.now.name (λ bytes. HasHeader bytes self.now.header
            → IsFaultlessTo bytes self.now → GivesAtMost
            (length bytes - next_block self.now + bytes_again self.now.header self.now.count) (D.given disk.old)
            (D.given disk.new)) }
        ensures gave_number { (n sum : ℕ) → result ≡ Ok (n, sum) → 1 ≤ n
            → GivesAtMost 6 (D.given disk.old) (D.given disk.new) }
        ensures unchanged { D.told disk.new ≡ D.told disk.old }
        ensures same_folder { D.folder disk.new ≡ D.folder disk.old }
        ensures no_memory { IsErrOf result fault.Memory → ⊥ }
        ensures cause { ReadHasCause (D.fault_count disk.old) (D.fault_count disk.new) result }
    {
        let front = front_at(disk, self.path(), self.block_offset(self.count))?;
        let number = u32::from_be_bytes([front[0], front[1], front[2], front[3]]);
        let mut sum = self.sum;
        sum.over(&front);
        if number == 0 {
            self.check_end(disk, sum)?;
            return Ok((0, sum));
        }
        if !self.is_next(number) {
            return Err(ReadFault::Fault(LtxFault::BadOrder(number)));
        }
        Ok((number, sum))
    }

    /// Whether the number is above the last one, at most the commit, and isn't the lock page.
    fn is_next(&self, number: u32) -> bool
        ensures { result ≡ spec.is_next self.now.header.size self.now.header.commit self.now.last number }
    {
        is_next(&self.header, self.last, number)
    }

    /// The fault, which stops the reader where the file has it.
    fn stopped_by(&mut self, fault: ReadFault) -> ReadFault
        ensures same { result ≡ fault }
        ensures now { self.new ≡ stopped fault self.old }
    {
        if let ReadFault::Fault(found) = fault {
            self.progress = Progress::Failed(found);
        }
        fault
    }

    /// Reads the page whose number was read.
    pub(crate) fn fill_page<D: Disk>(
        &mut self,
        disk: &mut D,
        into: &mut [u8],
    ) -> Result<(), ReadFault>
        requires sized { length into.old ≡ self.old.header.size }
        ensures value { OfBytes (D.told disk.old) self.old.name (λ bytes. Passes
            (λ _. StandAt bytes (next_block self.old + 6) self.old.header.size into.new) (reaches bytes
            (next_block self.old + 6) self.old.header.size) result) }
        ensures now { self.new ≡ after_page_read result self.old }
        ensures gave { OfBytes (D.told disk.old) self.old.name
            (λ bytes. GivesAtMost (length bytes - (next_block self.old + 6)) (D.given disk.old) (D.given disk.new)) }
        ensures gave_room { GivesAtMost self.old.header.size (D.given disk.old) (D.given disk.new) }
        ensures unchanged { D.told disk.new ≡ D.told disk.old }
        ensures same_folder { D.folder disk.new ≡ D.folder disk.old }
        ensures no_memory { IsErrOf result fault.Memory → ⊥ }
        ensures cause { ReadHasCause (D.fault_count disk.old) (D.fault_count disk.new) result }
    {
        let at = self.block_offset(self.count) + FRONT_BYTES;
        let count = fill(disk, self.path(), at, into)?;
        if count < into.len() {
            return Err(self.stopped_by(ReadFault::Fault(LtxFault::Short)));
        }
        Ok(())
    }

    /// Takes in that the page of this number was given.
    pub(crate) fn take_page(&mut self, number: u32, page: &[u8])
        requires waits { self.old.progress ≡ progress.AtNumber number }
        ensures now { self.new ≡ record self.old {
          count = self.old.count + 1;
          last = number;
          sum = self.new.sum;
          progress = progress.Going;
        } }
        ensures sum { (before : List ℕ) → IsBehind before self.old.sum → IsBehind (before ++ page.now) self.new.sum }
    {
        self.sum.over(page);
        self.last = number;
        self.count += 1;
        self.progress = Progress::Going;
    }
}
