//! Writing the output: whole under its name, or not at all.

ghost use Rattle.std.specs.Prelude.{◌≡◌, ◌≢◌, ◌≤◌, [], None, string_bytes, IfOk, IfErr, IsErrOf, OnOk};
ghost use Rattle.ls_base.specs.Fault.{Rose};
ghost use Rattle.crash_disk.specs.declared.event.Event.TheVariants.{Removed};
ghost use Rattle.crash_disk.specs.Told.{IfTold, gains, GainsOrNot};
ghost use Rattle.crash_disk.specs.Files.{IsThere, file_at, files_after};
ghost use Rattle.page_cursors.specs.Cursors.{AreReady, HaveGiven, plan_of};
ghost use Rattle.page_cursors.specs.Costs.{AreCounted, Takes, left_of_all, nothing};
ghost use Rattle.restore_apply.specs.declared.restored.RestoreFault.TheVariants as fault;
ghost use Rattle.restore_apply.specs.Restoring.{ExplainsRestore};
ghost use Rattle.restore_apply.specs.Writing.{RestsOn, FillsPages, NamesPages, LeavesPages, WritesPages, Clears};
ghost use Rattle.restore_apply.specs.Writing.{fault_of};
ghost use Rattle.restore_apply.specs.Staging.{MayBegin, temporary_name};
ghost use Rattle.crash_disk.specs.GoesOn.{GoesOn};

use crate::gathered::Gathered;
use crate::pages::put_pages;
use crate::restored::RestoreFault;
use crash_disk::Disk;
use ls_base::Steps;
use page_cursors::{Cursors, CursorsFault};
use std::alloc::{AllocError, Global};
use std::sync::ledger::Ledger;

/// The name under which the output of this name is written, until it is whole.
pub fn temporary_name(alloc: Global, name: &str) -> Result<String, AllocError>
    ensures { IfOk result (λ temporary. string_bytes temporary ≡ temporary_name name.now) }
{
    let mut temporary = String::from_str(alloc, name)?;
    temporary.push_str(".litestream-tmp")?;
    Ok(temporary)
}

/// Removes the temporary file, which is of no use to anyone once a restore has failed: the fault that counts is the
/// first.
fn clear<T: Disk>(target: &mut T, temporary: &str)
    ensures tried { GainsOrNot (T.told target.old) (T.told target.new) (Removed temporary.now) }
    ensures removed { (Rose (T.fault_count target.old) (T.fault_count target.new) → ⊥)
        → T.told target.new ≡ gains (T.told target.old) (Removed temporary.now) }
    ensures same_folder { T.folder target.new ≡ T.folder target.old }
    ensures later { T.fault_count target.old ≤ T.fault_count target.new }
{
    let _ = target.remove(temporary);
}

/// Clears what an earlier stop may have left where the cursors could not be begun, but not for want of memory.
pub fn refuse<T: Disk>(target: &mut T, temporary: &str, found: CursorsFault) -> RestoreFault
    ensures same { result ≡ fault_of found }
    ensures clears { Clears temporary.now (T.told target.old) (T.told target.new) (T.fault_count target.old)
        (T.fault_count target.new) found }
    ensures same_folder { T.folder target.new ≡ T.folder target.old }
    ensures later { T.fault_count target.old ≤ T.fault_count target.new }
{
    match found {
        CursorsFault::Damaged(name, damage) => {
            clear(target, temporary);
            RestoreFault::Damaged(name, damage)
        }
        CursorsFault::PageMissing(name, number) => {
            clear(target, temporary);
            RestoreFault::PageMissing(name, number)
        }
        CursorsFault::Store(fault) => {
            clear(target, temporary);
            RestoreFault::Store(fault)
        }
        CursorsFault::Memory => RestoreFault::Memory,
    }
}

/// Makes the file anew, and fills it with the pages that the cursors give.
fn fill<S: Disk, T: Disk, L: Ledger>(
    cursors: &mut Cursors,
    store: &mut S,
    target: &mut T,
    name: &str,
    gathered: &mut Gathered,
    steps: &mut Steps<L>,
) -> Result<(), RestoreFault>
    requires ready { AreReady cursors.old }
    requires given { IfTold (S.told store.old) (λ events. HaveGiven (files_after events) cursors.old []) }
    requires empty { gathered.old ≡ [] }
    ensures ok { IfOk result (λ _. FillsPages (S.told store.old) cursors.old name.now (T.told target.old)
        (T.told target.new)) }
    ensures there { OnOk result (IfTold (T.told target.new) (λ events. IsThere events name.now)) }
    ensures err { IfErr result (λ _. GoesOn (T.told target.old) (T.told target.new) (MayBegin name.now)) }
    ensures rests { IfErr result (RestsOn (S.told store.old) (plan_of cursors.old) (S.fault_count store.old)
        (S.fault_count store.new) (T.fault_count target.old) (T.fault_count target.new)) }
    ensures takes { IfTold (S.told store.old) (λ events. AreCounted (files_after events) cursors.old.cursors.items
        → Takes (left_of_all (files_after events) cursors.old.cursors.items) nothing
        steps.old steps.new (S.given store.old) (S.given store.new)) }
    ensures store_unchanged { S.told store.new ≡ S.told store.old }
    ensures same_folder { S.folder store.new ≡ S.folder store.old }
    ensures same_target_folder { T.folder target.new ≡ T.folder target.old }
    ensures store_later { S.fault_count store.old ≤ S.fault_count store.new }
    ensures target_later { T.fault_count target.old ≤ T.fault_count target.new }
{
    target.create(name)?;
    put_pages(cursors, store, target, name, gathered, steps)?;
    gathered.flush(target, name)?;
    Ok(())
}

/// Writes the pages under the temporary name, brings them to the disk and gives them the name.
fn write_named<S: Disk, T: Disk, L: Ledger>(
    cursors: &mut Cursors,
    store: &mut S,
    target: &mut T,
    temporary: &str,
    name: &str,
    gathered: &mut Gathered,
    steps: &mut Steps<L>,
) -> Result<(), RestoreFault>
    requires ready { AreReady cursors.old }
    requires given { IfTold (S.told store.old) (λ events. HaveGiven (files_after events) cursors.old []) }
    requires empty { gathered.old ≡ [] }
    requires apart { temporary.now ≢ name.now }
    ensures ok { IfOk result (λ _. NamesPages (S.told store.old) cursors.old temporary.now name.now (T.told target.old)
        (T.told target.new)) }
    ensures err { IfErr result (LeavesPages (S.told store.old) cursors.old temporary.now name.now (T.told target.old)
        (T.told target.new)) }
    ensures rests { IfErr result (RestsOn (S.told store.old) (plan_of cursors.old) (S.fault_count store.old)
        (S.fault_count store.new) (T.fault_count target.old) (T.fault_count target.new)) }
    ensures takes { IfTold (S.told store.old) (λ events. AreCounted (files_after events) cursors.old.cursors.items
        → Takes (left_of_all (files_after events) cursors.old.cursors.items) nothing
        steps.old steps.new (S.given store.old) (S.given store.new)) }
    ensures store_unchanged { S.told store.new ≡ S.told store.old }
    ensures same_folder { S.folder store.new ≡ S.folder store.old }
    ensures same_target_folder { T.folder target.new ≡ T.folder target.old }
    ensures store_later { S.fault_count store.old ≤ S.fault_count store.new }
    ensures target_later { T.fault_count target.old ≤ T.fault_count target.new }
{
    fill(cursors, store, target, temporary, gathered, steps)?;
    target.sync(temporary)?;
    target.rename(temporary, name)?;
    Ok(())
}

/// Writes the pages that the cursors give: under the temporary name first, so that nothing but the whole of them ever
/// has the name.
pub fn write_output<S: Disk, T: Disk, L: Ledger>(
    cursors: &mut Cursors,
    store: &mut S,
    target: &mut T,
    temporary: &str,
    name: &str,
    mut gathered: Gathered,
    steps: &mut Steps<L>,
) -> Result<(), RestoreFault>
    requires ready { AreReady cursors.old }
    requires given { IfTold (S.told store.old) (λ events. HaveGiven (files_after events) cursors.old []) }
    requires empty { gathered ≡ [] }
    requires temporary { temporary.now ≡ temporary_name name.now }
    requires absent { IfTold (T.told target.old) (λ events. file_at events name.now ≡ None) }
    ensures ok { IfOk result (λ _. WritesPages (S.told store.old) cursors.old name.now (T.told target.old)
        (T.told target.new)) }
    ensures explained { IfErr result (ExplainsRestore (S.told store.old) (plan_of cursors.old) name.now
        (T.told target.old) (T.told target.new) (S.fault_count store.old) (S.fault_count store.new)
        (T.fault_count target.old) (T.fault_count target.new)) }
    ensures takes { IfTold (S.told store.old) (λ events. AreCounted (files_after events) cursors.old.cursors.items
        → Takes (left_of_all (files_after events) cursors.old.cursors.items) nothing
        steps.old steps.new (S.given store.old) (S.given store.new)) }
    ensures no_memory { IsErrOf result fault.Memory → ⊥ }
    ensures store_unchanged { S.told store.new ≡ S.told store.old }
    ensures same_folder { S.folder store.new ≡ S.folder store.old }
    ensures same_target_folder { T.folder target.new ≡ T.folder target.old }
    ensures store_later { S.fault_count store.old ≤ S.fault_count store.new }
    ensures target_later { T.fault_count target.old ≤ T.fault_count target.new }
{
    let written = write_named(
        cursors,
        store,
        target,
        temporary,
        name,
        &mut gathered,
        steps,
    );
    if let Err(fault) = written {
        clear(target, temporary);
        return Err(fault);
    }
    target.sync_names()?;
    Ok(())
}
