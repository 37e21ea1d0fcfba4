//! Reading a file page by page.

ghost use Rattle.std.specs.Prelude.{◌≡◌, ℕ, ◌+◌, ◌-◌, Some, Ok, length, IfOk, IfErr, IsErrOf};
ghost use Rattle.ltx_format.specs.LtxFormat.{IsHeader};
ghost use Rattle.ltx_reader.specs.declared.progress.Progress.TheVariants as progress;
ghost use Rattle.ltx_reader.specs.declared.read_fault.ReadFault.TheVariants as fault;
ghost use Rattle.crash_disk.specs.declared.fault.DiskFault.{DiskFault};
ghost use Rattle.ltx_reader.specs.Reader.{OfBytes, IsReaderOf, Announces, Gives, TellsFault, IsAsBefore, HasSameFile};
ghost use Rattle.ltx_reader.specs.Reader.{StaysBeforePage, Stops, Waits, Repeats, RepeatsNumber, IfKnown, steps_of};
ghost use Rattle.ltx_reader.specs.Reader.{pages_left, pages_of};
ghost use Rattle.ltx_reader.specs.ReaderGiven.{GivesAtMost, HasCounted, read_so_far, bytes_left};
ghost use Rattle.ltx_reader.specs.ReaderCause.{ReadHasCause};

use crate::filling::fill;
use crate::progress::Progress;
use crate::read_fault::ReadFault;
use crash_disk::Disk;
use ls_base::Steps;
use ls_sums::Crc64;
use ltx_format::{HEADER_BYTES, LtxFault, LtxHeader, read_ltx_header};
use std::alloc::Global;
use std::marker::Model;
use std::sync::ledger::Ledger;

/// A reader that goes through a file page by page. It reads each byte of the file once, but for the numbers
/// of the blocks of a file with an index, which it reads again beside the index. It holds no page.
#[derive(Debug, Drop)]
pub struct LtxReader {
    pub(crate) name: String,
    pub(crate) header: LtxHeader,
    pub(crate) count: u32,
    pub(crate) last: u32,
    pub(crate) sum: Crc64,
    pub(crate) progress: Progress,
}

impl Model for LtxReader {
    ghost use Rattle.std.specs.Prelude.{string_bytes, ◌≤◌};
    ghost use Rattle.ltx_format.specs.LtxFormat.{IsHeader};
    ghost use Rattle.ltx_reader.specs.Reader.{Reader, IsAbove};

    ghost Value = { Reader };

    ghost view = { λ r. record {
      name = string_bytes r.name;
      header = r.header;
      count = r.count;
      last = r.last;
      sum = r.sum;
      progress = r.progress;
    } };

    ghost invariant = { λ r. (r.count ≤ r.last) × IsAbove r.last r.progress × IsHeader r.header };
}

impl LtxReader {
    /// A reader of the file of this name, before its first page. `Disk` for a fault of the disk, `Fault` with
    /// the first fault of the header, and `Memory` for want of it.
    pub fn begin<D: Disk>(alloc: Global, disk: &mut D, name: &str) -> Result<LtxReader, ReadFault>
        ensures reads { IfOk result (λ reader. OfBytes (D.told disk.old) name.now (λ bytes. IsReaderOf bytes reader)) }
        ensures pages { IfOk result (λ reader. OfBytes (D.told disk.old) name.now
            (λ bytes. pages_left bytes reader ≡ pages_of bytes)) }
        ensures name { IfOk result (λ reader. reader.name ≡ name.now) }
        ensures start { IfOk result (λ reader. (reader.progress ≡ progress.Going) × (reader.count ≡ 0)) }
        ensures fault { IfErr result (λ e. OfBytes (D.told disk.old) name.now (λ bytes. TellsFault bytes e)) }
        ensures gave { GivesAtMost 100 (D.given disk.old) (D.given disk.new) }
        ensures gave_file { OfBytes (D.told disk.old) name.now (λ bytes. GivesAtMost (length bytes)
            (D.given disk.old) (D.given disk.new)) }
        ensures unchanged { D.told disk.new ≡ D.told disk.old }
        ensures same_folder { D.folder disk.new ≡ D.folder disk.old }
        ensures cause { ReadHasCause (D.fault_count disk.old) (D.fault_count disk.new) result }
    {
        let name = String::from_str(alloc, name)?;
        let mut front = [0u8; HEADER_BYTES];
        let count = fill(disk, name.as_str(), 0, &mut front)?;
        if count < HEADER_BYTES {
            return Err(ReadFault::Fault(LtxFault::Short));
        }
        let header = read_ltx_header(&front)?;
        let mut sum = Crc64::new();
        sum.over(&front);
        Ok(LtxReader {
            name,
            header,
            count: 0,
            last: 0,
            sum,
            progress: Progress::Going,
        })
    }

    /// The header of the file: one that a file may have, also where the disk doesn't tell its content.
    pub fn header(&self) -> &LtxHeader
        ensures value { result.now ≡ self.now.header }
        ensures valid { IsHeader result.now }
    {
        &self.header
    }

    /// The number of the next page, without the page: the same one until `next_page` gives the page. `None`
    /// behind the last page of a file that has no fault. `Fault` with the first fault of the file, which each
    /// later call answers too. `Disk` for a fault of the disk; the reader is then as it was. Takes no memory,
    /// and never answers `Memory`.
    pub fn number<D: Disk>(&mut self, disk: &mut D) -> Result<Option<u32>, ReadFault>
        ensures number { IfOk result (λ next. OfBytes (D.told disk.old) self.old.name
            (λ bytes. IsReaderOf bytes self.old
            → Announces bytes self.old self.new next)) }
        ensures keeps { OfBytes (D.told disk.old) self.old.name (λ bytes. IsReaderOf bytes self.old
            → IsReaderOf bytes self.new) }
        ensures same_file { HasSameFile self.old self.new }
        ensures stays { StaysBeforePage self.old self.new }
        ensures stops { Stops self.new.progress result }
        ensures waits { Waits self.new.progress result }
        ensures again { RepeatsNumber self.old.progress result }
        ensures unmoved { IfKnown self.old.progress (self.new ≡ self.old) }
        ensures still { (why : DiskFault) → IsErrOf result (fault.Disk why) → self.new ≡ self.old }
        ensures gave { OfBytes (D.told disk.old) self.old.name (λ bytes. IsReaderOf bytes self.old
            → GivesAtMost (bytes_left bytes self.old) (D.given disk.old) (D.given disk.new)) }
        ensures gave_number { (n : ℕ) → result ≡ Ok (Some n) → GivesAtMost (read_so_far self.new - read_so_far self.old)
            (D.given disk.old) (D.given disk.new) }
        ensures unchanged { D.told disk.new ≡ D.told disk.old }
        ensures same_folder { D.folder disk.new ≡ D.folder disk.old }
        ensures cause { ReadHasCause (D.fault_count disk.old) (D.fault_count disk.new) result }
    {
        match self.progress {
            Progress::Going => self.go_on(disk),
            Progress::AtNumber(number) => Ok(Some(number)),
            Progress::Ended => Ok(None),
            Progress::Failed(fault) => Err(ReadFault::Fault(fault)),
        }
    }

    /// Reads the next page into the buffer, which has the page size, and answers the page's number. `None`
    /// behind the last page of a file that has no fault. `Fault` with the first fault of the file, which each
    /// later call answers too. `Disk` for a fault of the disk; the call may be made again, and the reader gives
    /// what it would have given. A page is one step, and anything else none. Takes no memory, and never
    /// answers `Memory`.
    pub fn next_page<D: Disk, L: Ledger>(
        &mut self,
        disk: &mut D,
        into: &mut [u8],
        steps: &mut Steps<L>,
    ) -> Result<Option<u32>, ReadFault>
        requires sized { length into.old ≡ self.old.header.size }
        ensures page { IfOk result (λ next. OfBytes (D.told disk.old) self.old.name (λ bytes. IsReaderOf bytes self.old
            → Gives bytes self.old self.new into.new next)) }
        ensures keeps { OfBytes (D.told disk.old) self.old.name (λ bytes. IsReaderOf bytes self.old
            → IsReaderOf bytes self.new) }
        ensures same_file { HasSameFile self.old self.new }
        ensures stops { Stops self.new.progress result }
        ensures again { Repeats self.old.progress result }
        ensures still { (why : DiskFault) → IsErrOf result (fault.Disk why) → IsAsBefore self.old self.new }
        ensures moved { (n : ℕ) → result ≡ Ok (Some n) → self.new.last ≡ n }
        ensures counted { (n : ℕ) → result ≡ Ok (Some n) → HasCounted self.old self.new }
        ensures steps { steps.new ≡ steps.old + steps_of result }
        ensures gave { OfBytes (D.told disk.old) self.old.name (λ bytes. IsReaderOf bytes self.old
            → GivesAtMost (bytes_left bytes self.old) (D.given disk.old) (D.given disk.new)) }
        ensures gave_page { (n : ℕ) → result ≡ Ok (Some n) → GivesAtMost (read_so_far self.new - read_so_far self.old)
            (D.given disk.old) (D.given disk.new) }
        ensures unchanged { D.told disk.new ≡ D.told disk.old }
        ensures same_folder { D.folder disk.new ≡ D.folder disk.old }
        ensures cause { ReadHasCause (D.fault_count disk.old) (D.fault_count disk.new) result }
    {
        let Some(number) = self.number(disk)? else {
            return Ok(None);
        };
        self.fill_page(disk, into)?;
        self.take_page(number, into);
        steps.tick();
        Ok(Some(number))
    }
}
