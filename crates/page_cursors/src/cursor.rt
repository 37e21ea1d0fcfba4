//! One file of a plan, gone through page by page.

ghost use Rattle.std.specs.Prelude.{◌≡◌, ◌+◌, ◌<◌, ◌≤◌, Some, length, take, IfOk, IfErr, IsErrOf, ℕ};
ghost use Rattle.crash_disk.specs.Files.{files_after};
ghost use Rattle.crash_disk.specs.Told.{IfTold};
ghost use Rattle.ltx_reader.specs.ReaderCause.{ReadHasCause};
ghost use Rattle.ltx_reader.specs.declared.read_fault.ReadFault.TheVariants as fault;
ghost use Rattle.replica_store.specs.declared.file_name.FileName.{FileName};
ghost use Rattle.page_cursors.specs.Cursor.{ReadsFile, GivesPage, KeepsFile, HasEnded, TellsFileFault, HaveSize};
ghost use Rattle.page_cursors.specs.Cursor.{AreMoved, GivesAt, AsksAt, FailsAt, bytes_of};
ghost use Rattle.page_cursors.specs.Costs.{Takes, IsCounted, AreCounted, nothing, cost_left, left_of, left_of_all};

use crate::wanted::Wanted;
use crash_disk::Disk;
use ls_base::Steps;
use ltx_reader::{LtxReader, ReadFault};
use replica_store::FileName;
use std::sync::ledger::Ledger;

/// One file of a plan: how far it was read, and which pages it must still hold.
#[derive(Debug, Drop)]
pub struct Cursor {
    pub name: FileName,
    pub reader: LtxReader,
    pub wanted: Wanted,
}

/// Puts the page of this number, with which the cursor waits, into the buffer, and answers the number with which it
/// waits then; `None` at the file's end.
pub fn give<S: Disk, L: Ledger>(
    cursor: &mut Cursor,
    store: &mut S,
    number: u32,
    page: &mut [u8],
    steps: &mut Steps<L>,
) -> Result<Option<u32>, ReadFault>
    requires sized { length page.old ≡ cursor.old.reader.header.size }
    ensures gives { IfOk result (λ next. IfTold (S.told store.old) (λ events. GivesPage
        (files_after events) number cursor.old cursor.new page.new next)) }
    ensures fault { IfErr result (λ e. IfTold (S.told store.old) (λ events. ReadsFile
        (files_after events) cursor.old.name cursor.old.reader
        → TellsFileFault (files_after events) cursor.old.name e)) }
    ensures same_file { KeepsFile cursor.old cursor.new }
    ensures takes { IfOk result (λ _. IfTold (S.told store.old) (λ events.
        IsCounted (files_after events) cursor.old.name cursor.old.reader
        → IsCounted (files_after events) cursor.new.name cursor.new.reader
        × Takes (left_of (files_after events) cursor.old) (left_of (files_after events) cursor.new)
        steps.old steps.new (S.given store.old) (S.given store.new))) }
    ensures spends { IfErr result (λ _. IfTold (S.told store.old) (λ events.
        IsCounted (files_after events) cursor.old.name cursor.old.reader
        → Takes (left_of (files_after events) cursor.old) nothing
        steps.old steps.new (S.given store.old) (S.given store.new))) }
    ensures no_memory { IsErrOf result fault.Memory → ⊥ }
    ensures unchanged { S.told store.new ≡ S.told store.old }
    ensures same_folder { S.folder store.new ≡ S.folder store.old }
    ensures cause { ReadHasCause (S.fault_count store.old) (S.fault_count store.new) result }
{
    cursor.reader.next_page(store, page, steps)?;
    cursor.wanted.take(number);
    cursor.reader.number(store)
}

/// The same of the cursor at this place.
pub fn give_at<S: Disk, L: Ledger>(
    cursors: &mut [Cursor],
    place: usize,
    store: &mut S,
    number: u32,
    page: &mut [u8],
    steps: &mut Steps<L>,
) -> Result<Option<u32>, ReadFault>
    requires within { place < length cursors.old }
    requires sized { HaveSize (length page.old) cursors.old }
    ensures gives { IfOk result (λ next. IfTold (S.told store.old) (λ events. GivesAt
        (files_after events) number place cursors.old cursors.new page.new next)) }
    ensures fault { IfErr result (λ e. IfTold (S.told store.old) (λ events. FailsAt
        (files_after events) place cursors.old e)) }
    ensures same { AreMoved place cursors.old cursors.new }
    ensures takes { IfOk result (λ _. IfTold (S.told store.old) (λ events. AreCounted (files_after events) cursors.old
        → AreCounted (files_after events) cursors.new
        × Takes (left_of_all (files_after events) cursors.old) (left_of_all (files_after events) cursors.new)
        steps.old steps.new (S.given store.old) (S.given store.new))) }
    ensures spends { IfErr result (λ _. IfTold (S.told store.old) (λ events. AreCounted (files_after events) cursors.old
        → AreCounted (files_after events) (take place cursors.new)
        × Takes (left_of_all (files_after events) cursors.old)
        (left_of_all (files_after events) (take place cursors.new)) steps.old steps.new (S.given store.old)
        (S.given store.new))) }
    ensures no_memory { IsErrOf result fault.Memory → ⊥ }
    ensures unchanged { S.told store.new ≡ S.told store.old }
    ensures same_folder { S.folder store.new ≡ S.folder store.old }
    ensures cause { ReadHasCause (S.fault_count store.old) (S.fault_count store.new) result }
{
    give(&mut cursors[place], store, number, page, steps)
}

/// Asks the cursor at this place for the number with which it waits, `None` at its file's end.
pub fn ask_at<S: Disk>(
    cursors: &mut [Cursor],
    place: usize,
    store: &mut S,
) -> Result<Option<u32>, ReadFault>
    requires within { place < length cursors.old }
    ensures asks { IfOk result (λ next. IfTold (S.told store.old) (λ events. AsksAt
        (files_after events) place cursors.old cursors.new next)) }
    ensures fault { IfErr result (λ e. IfTold (S.told store.old) (λ events. FailsAt
        (files_after events) place cursors.old e)) }
    ensures same { AreMoved place cursors.old cursors.new }
    ensures takes { IfOk result (λ _. IfTold (S.told store.old) (λ events. AreCounted (files_after events) cursors.old
        → AreCounted (files_after events) cursors.new
        × Takes (left_of_all (files_after events) cursors.old) (left_of_all (files_after events) cursors.new)
        0 0 (S.given store.old) (S.given store.new))) }
    ensures spends { IfErr result (λ _. IfTold (S.told store.old) (λ events. AreCounted (files_after events) cursors.old
        → AreCounted (files_after events) (take place cursors.new)
        × Takes (left_of_all (files_after events) cursors.old)
        (left_of_all (files_after events) (take place cursors.new)) 0 0 (S.given store.old) (S.given store.new))) }
    ensures no_memory { IsErrOf result fault.Memory → ⊥ }
    ensures unchanged { S.told store.new ≡ S.told store.old }
    ensures same_folder { S.folder store.new ≡ S.folder store.old }
    ensures cause { ReadHasCause (S.fault_count store.old) (S.fault_count store.new) result }
{
    cursors[place].reader.number(store)
}

/// Reads what is left of a file, so that a fault in it is found.
pub fn read_to_end<S: Disk, L: Ledger>(
    reader: &mut LtxReader,
    store: &mut S,
    page: &mut [u8],
    steps: &mut Steps<L>,
) -> Result<(), ReadFault>
    requires sized { length page.old ≡ reader.old.header.size }
    ensures ended { IfOk result (λ _. IfTold (S.told store.old) (λ events. (name : FileName)
        → HasEnded (files_after events) name reader.old reader.new)) }
    ensures fault { IfErr result (λ e. IfTold (S.told store.old) (λ events. (name : FileName)
        → ReadsFile (files_after events) name reader.old → TellsFileFault (files_after events) name e)) }
    ensures name { reader.new.name ≡ reader.old.name }
    ensures header { reader.new.header ≡ reader.old.header }
    ensures spends { IfTold (S.told store.old) (λ events. (name : FileName)
        → IsCounted (files_after events) name reader.old
        → Takes (cost_left (bytes_of (files_after events) name) reader.old) nothing
        steps.old steps.new (S.given store.old) (S.given store.new)) }
    ensures no_memory { IsErrOf result fault.Memory → ⊥ }
    ensures unchanged { S.told store.new ≡ S.told store.old }
    ensures same_folder { S.folder store.new ≡ S.folder store.old }
    ensures cause { ReadHasCause (S.fault_count store.old) (S.fault_count store.new) result }
{
    // Numbers of 32 bits rise, so that no file has more pages.
    for _ in 0..=1u64 << 32 {
        if reader.next_page(store, page, steps)?.is_none() {
            return Ok(());
        }
    }
    Ok(())
}
