//! Which fault of a plan's files is told.

ghost use Rattle.std.specs.Prelude.{◌≡◌, ◌<◌, ℕ, List, Some, length, take, IfOk, IfErr};
ghost use Rattle.crash_disk.specs.Files.{files_after};
ghost use Rattle.crash_disk.specs.Told.{IfTold};
ghost use Rattle.replica_store.specs.declared.file_name.FileName.{FileName};
ghost use Rattle.page_cursors.specs.Cursor.{HaveSize};
ghost use Rattle.page_cursors.specs.Costs.{Takes, AreCounted, OddIsCounted, nothing, both, left_of_all, odd_left};
ghost use Rattle.page_cursors.specs.Ending.{FindsFault, BlamesAt, AllHold, LacksAt};
ghost use Rattle.page_cursors.specs.Fault.{Blames, CursorsHaveCause, FaultHasCause, IsStoreFault};
ghost use Rattle.page_cursors.specs.Opening.{HaveBegun, CoversPlan, IsOdd, IsOddDamage};

use crate::cursor::{Cursor, read_to_end};
use crate::fault::CursorsFault;
use crate::opening::Odd;
use crash_disk::Disk;
use ls_base::Steps;
use ltx_format::LtxFault;
use ltx_reader::ReadFault;
use replica_store::{Damage, FileName};
use std::sync::ledger::Ledger;

/// How many bytes the largest page has.
pub const LARGEST_PAGE: usize = 65536;

/// Reads these files to their ends. The first fault in one of them, or else the damage of the file behind them.
fn first_damage<S: Disk, L: Ledger>(
    cursors: &mut [Cursor],
    store: &mut S,
    name: FileName,
    damage: Damage,
    page: &mut [u8],
    steps: &mut Steps<L>,
) -> CursorsFault
    requires sized { HaveSize (length page.old) cursors.old }
    ensures blames { IfTold (S.told store.old) (λ events. FindsFault (files_after events) (S.told store.old)
        (length page.old) cursors.old name damage result) }
    ensures spends { IfTold (S.told store.old) (λ events. AreCounted (files_after events) cursors.old
        → Takes (left_of_all (files_after events) cursors.old) nothing
        steps.old steps.new (S.given store.old) (S.given store.new)) }
    ensures unchanged { S.told store.new ≡ S.told store.old }
    ensures same_folder { S.folder store.new ≡ S.folder store.old }
    ensures cause { FaultHasCause (S.fault_count store.old) (S.fault_count store.new) result }
{
    for place in 0..cursors.len() {
        let name = cursors[place].name;
        match read_to_end(&mut cursors[place].reader, store, page, steps) {
            Ok(()) => {}
            Err(ReadFault::Fault(fault)) => return CursorsFault::Damaged(name, Damage::File(fault)),
            Err(ReadFault::Disk(fault)) => return CursorsFault::Store(fault),
            Err(ReadFault::Memory) => unreachable!(),
        }
    }
    CursorsFault::Damaged(name, damage)
}

/// What is told where the file at this place has the fault: the first fault in one of the files before it, or else
/// its own.
pub fn damage_at<S: Disk, L: Ledger>(
    cursors: &mut [Cursor],
    store: &mut S,
    place: usize,
    fault: LtxFault,
    page: &mut [u8],
    steps: &mut Steps<L>,
) -> CursorsFault
    requires within { place < length cursors.old }
    requires sized { HaveSize (length page.old) cursors.old }
    ensures blames { IfTold (S.told store.old) (λ events. BlamesAt (files_after events) (S.told store.old)
        (length page.old) cursors.old place fault result) }
    ensures spends { IfTold (S.told store.old) (λ events. AreCounted (files_after events) (take place cursors.old)
        → Takes (left_of_all (files_after events) (take place cursors.old)) nothing
        steps.old steps.new (S.given store.old) (S.given store.new)) }
    ensures unchanged { S.told store.new ≡ S.told store.old }
    ensures same_folder { S.folder store.new ≡ S.folder store.old }
    ensures cause { FaultHasCause (S.fault_count store.old) (S.fault_count store.new) result }
{
    let name = cursors[place].name;
    first_damage(
        &mut cursors[..place],
        store,
        name,
        Damage::File(fault),
        page,
        steps,
    )
}

/// What is wrong with a file that isn't taken in: its first fault, where it has one, and otherwise what it was
/// left for.
fn odd_damage<S: Disk, L: Ledger>(
    store: &mut S,
    odd: Odd,
    page: &mut [u8],
    steps: &mut Steps<L>,
) -> Result<Damage, CursorsFault>
    requires room { length page.old ≡ LARGEST_PAGE }
    ensures damage { IfOk result (λ damage. IfTold (S.told store.old) (λ events. (size : ℕ)
        → IsOdd (files_after events) size odd → IsOddDamage (files_after events) size odd damage)) }
    ensures spends { IfTold (S.told store.old) (λ events. OddIsCounted (files_after events) odd.name odd.reader
        → Takes (odd_left (files_after events) odd.name odd.reader) nothing
        steps.old steps.new (S.given store.old) (S.given store.new)) }
    ensures store { IfErr result IsStoreFault }
    ensures unchanged { S.told store.new ≡ S.told store.old }
    ensures same_folder { S.folder store.new ≡ S.folder store.old }
    ensures cause { CursorsHaveCause (S.fault_count store.old) (S.fault_count store.new) result }
{
    let Odd { damage, reader, .. } = odd;
    let Some(mut reader) = reader else {
        return Ok(damage);
    };
    let header = *reader.header();
    let into = &mut page[..header.size.get() as usize];
    match read_to_end(&mut reader, store, into, steps) {
        Ok(()) => Ok(damage),
        Err(ReadFault::Fault(fault)) => Ok(Damage::File(fault)),
        Err(ReadFault::Disk(fault)) => Err(CursorsFault::Store(fault)),
        Err(ReadFault::Memory) => unreachable!(),
    }
}

/// What is told of a file that isn't taken in, behind these files.
pub fn odd_fault<S: Disk, L: Ledger>(
    cursors: &mut [Cursor],
    store: &mut S,
    odd: Odd,
    page: &mut [u8],
    steps: &mut Steps<L>,
) -> CursorsFault
    requires room { length page.old ≡ LARGEST_PAGE }
    requires one_size { (size : ℕ) × HaveSize size cursors.old }
    ensures blames { IfTold (S.told store.old) (λ events. (size : ℕ) (plan : List FileName)
        → HaveBegun (files_after events) size 0 cursors.old
        → CoversPlan (files_after events) size plan cursors.old (Some odd) → Blames (S.told store.old) plan result) }
    ensures spends { IfTold (S.told store.old) (λ events. AreCounted (files_after events) cursors.old
        → OddIsCounted (files_after events) odd.name odd.reader
        → Takes (both (left_of_all (files_after events) cursors.old)
        (odd_left (files_after events) odd.name odd.reader)) nothing
        steps.old steps.new (S.given store.old) (S.given store.new)) }
    ensures unchanged { S.told store.new ≡ S.told store.old }
    ensures same_folder { S.folder store.new ≡ S.folder store.old }
    ensures cause { FaultHasCause (S.fault_count store.old) (S.fault_count store.new) result }
{
    let name = odd.name;
    let damage = match odd_damage(store, odd, page, steps) {
        Ok(damage) => damage,
        Err(fault) => return fault,
    };
    if cursors.is_empty() {
        return CursorsFault::Damaged(name, damage);
    }
    let header = *cursors[0].reader.header();
    let into = &mut page[..header.size.get() as usize];
    first_damage(cursors, store, name, damage, into, steps)
}

/// The first file that lacks a page which it must hold, and the first such page. The files were read to their ends.
pub fn lacking(cursors: &[Cursor]) -> Result<(), CursorsFault>
    ensures whole { IfOk result (λ _. AllHold cursors.now) }
    ensures lacks { IfErr result (LacksAt cursors.now) }
{
    for cursor in cursors {
        let header = *cursor.reader.header();
        if let Some(number) = cursor.wanted.lacking(header.commit) {
            return Err(CursorsFault::PageMissing(cursor.name, number));
        }
    }
    Ok(())
}
