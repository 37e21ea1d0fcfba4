//! Merging the files of a run.

ghost use Rattle.std.specs.Prelude.{◌≡◌, ◌<◌, ◌≤◌, ◌↔◌, ◌++◌, ◌∷◌, [], ℕ, length, IfOk, IfErr, IfSome, OnOk};
ghost use Rattle.std.specs.Prelude.{IsErrOf, IsTrue, OnErr};
ghost use Rattle.std.specs.Option.{IfNone};
ghost use Rattle.crash_disk.specs.Files.{files_after};
ghost use Rattle.crash_disk.specs.GoesOn.{GoesOn};
ghost use Rattle.crash_disk.specs.Told.{Told, IfTold};
ghost use Rattle.ltx_format.specs.LtxFormat.{IsHeader, IsStored};
ghost use Rattle.page_cursors.specs.declared.fault.CursorsFault.TheVariants as found;
ghost use Rattle.page_cursors.specs.Blocks.{Blocks};
ghost use Rattle.page_cursors.specs.Cursors.{AreReady, HaveGiven, SamePlan, plan_of};
ghost use Rattle.page_cursors.specs.Fault.{Blames, CursorsHaveCause};
ghost use Rattle.replica_store.specs.declared.file_name.FileName.{FileName};
ghost use Rattle.replica_store.specs.Chain.{IsListOrdered};
ghost use Rattle.replica_store.specs.Listing.{path_of};
ghost use Rattle.replica_store.specs.NameText.{IsName};
ghost use Rattle.replica_store.specs.Putting.{KeepsOthers};
ghost use Rattle.compact_levels.specs.Drafting.{BeginsCopying, HasCopied, HaveCopied, IsSameFile, StopsCopying};
ghost use Rattle.compact_levels.specs.Drafting.{header_of, CopiesPage, IsBeingPut, IsOfDiskOrMemory, WithDraft};
ghost use Rattle.compact_levels.specs.MergeCause.{MergeHasCause};
ghost use Rattle.compact_levels.specs.Merged.{HasMerged, HasMergedPlan, IsNameOf, IsRun, LeavesPlan, LeavesUnmerged};
ghost use Rattle.compact_levels.specs.Merged.{MergesHeader, Spans};

use crate::draft::Draft;
use crate::merge_fault::MergeFault;
use crate::run::Run;
use crate::run_files::files_of;
use crash_disk::Disk;
use ls_base::{Steps, Txid};
use ltx_format::LtxHeader;
use page_cursors::{Cursors, CursorsFault};
use replica_store::FileName;
use std::alloc::Global;
use std::marker::Brand;
use std::sync::ledger::{Blank, Ledger};

/// Whether a file of the header may hold a page of this number: neither the lock page, nor one past the last.
fn is_stored(header: &LtxHeader, number: u32) -> bool
    ensures { IsTrue result ↔ IsStored header.now number }
{
    number >= 1 && number <= header.commit && number != header.size.lock_page()
}

/// The next page of the files, of which the first begins with this transaction. Where that is 1, no page that a file
/// must hold may be missing.
fn next_of<S: Disk, L: Ledger>(
    cursors: &mut Cursors,
    store: &mut S,
    min: Txid,
    steps: &mut Steps<L>,
) -> Result<Option<u32>, CursorsFault>
    requires ready { AreReady cursors.old }
    ensures ready { IfOk result (λ _. AreReady cursors.new) }
    ensures rises { IfOk result (λ next. IfSome next (λ number. (cursors.old.last < number) ×
        (cursors.new.last ≡ number))) }
    ensures gives { IfOk result (λ next. IfSome next (λ number. IfTold (S.told store.old) (λ events.
        (given : Blocks) → HaveGiven (files_after events) cursors.old given
        → HaveGiven (files_after events) cursors.new (given ++ (number, cursors.new.page.items) ∷ [])))) }
    ensures ended { IfOk result (λ next. IfNone next (IfTold (S.told store.old) (λ events. (given : Blocks)
        → HaveGiven (files_after events) cursors.old given → HaveCopied min (files_after events)
        (plan_of cursors.old) cursors.old.size given))) }
    ensures explained { IfErr result (λ e. IfTold (S.told store.old) (λ events. (given : Blocks)
        → HaveGiven (files_after events) cursors.old given → Blames (S.told store.old) (plan_of cursors.old) e)) }
    ensures no_memory { IsErrOf result found.Memory → ⊥ }
    ensures missing { (name : FileName) (number : ℕ) → IsErrOf result (found.PageMissing name number)
        → min ≡ 1 }
    ensures same { OnOk result (SamePlan cursors.old cursors.new) }
    ensures unchanged { S.told store.new ≡ S.told store.old }
    ensures same_folder { S.folder store.new ≡ S.folder store.old }
    ensures cause { CursorsHaveCause (S.fault_count store.old) (S.fault_count store.new) result }
{
    if min.number() == 1 {
        return cursors.next(store, steps);
    }
    cursors.next_of_run(store, steps)
}

/// Gives the merged file the page of this number, which the cursors gave, where it may hold it.
fn copy_page<S: Disk>(
    cursors: &Cursors,
    store: &mut S,
    draft: &mut Draft,
    header: &LtxHeader,
    number: u32,
) -> Result<(), MergeFault>
    requires being_put { IsBeingPut draft.old.put (S.told store.old) }
    requires rises { draft.old.writer.written.last < number }
    requires header { header_of draft.old ≡ header.now }
    requires sized { length cursors.now.page.items ≡ header.now.size }
    ensures ok { OnOk result (CopiesPage (S.told store.old) (S.told store.new) draft.old draft.new cursors.now number) }
    ensures being_put { OnOk result (IsBeingPut draft.new.put (S.told store.new)) }
    ensures last { OnOk result (draft.new.writer.written.last ≤ number) }
    ensures err { OnErr result (WithDraft draft.old (S.told store.old) (λ begun pages. GoesOn
        begun (S.told store.new) (KeepsOthers draft.old.put))) }
    ensures failed { IfErr result IsOfDiskOrMemory }
    ensures same { IsSameFile draft.old draft.new }
    ensures same_folder { S.folder store.new ≡ S.folder store.old }
    ensures cause { MergeHasCause (S.fault_count store.old) (S.fault_count store.new) result }
{
    if !is_stored(header, number) {
        return Ok(());
    }
    draft.page(store, number, &cursors.page)
}

/// Gives the merged file each page that may stand in it, from the last file that has it.
fn copy_pages<S: Disk, L: Ledger>(
    cursors: &mut Cursors,
    store: &mut S,
    draft: &mut Draft,
    header: &LtxHeader,
    steps: &mut Steps<L>,
) -> Result<(), MergeFault>
    requires ready { AreReady cursors.old }
    requires being_put { IsBeingPut draft.old.put (S.told store.old) }
    requires rises { draft.old.writer.written.last ≤ cursors.old.last }
    requires header { header_of draft.old ≡ header.now }
    requires sized { header.now.size ≡ cursors.old.size }
    ensures ok { OnOk result ((begun : Told) → BeginsCopying begun (S.told store.old) cursors.old draft.old
        → HasCopied begun (S.told store.new) header.now.min (plan_of cursors.old) cursors.old.size draft.new) }
    ensures being_put { OnOk result (IsBeingPut draft.new.put (S.told store.new)) }
    ensures err { IfErr result (λ fault. (begun : Told) → BeginsCopying begun (S.told store.old) cursors.old draft.old
        → GoesOn begun (S.told store.new) (StopsCopying header.now.min (plan_of cursors.old) draft.old.put fault)) }
    ensures same { IsSameFile draft.old draft.new }
    ensures same_folder { S.folder store.new ≡ S.folder store.old }
    ensures cause { MergeHasCause (S.fault_count store.old) (S.fault_count store.new) result }
{
    while let Some(number) = next_of(cursors, store, header.min, steps)? {
        copy_page(cursors, store, draft, header, number)?;
    }
    Ok(())
}

/// The header of the merged file: that of the last file, from the first transaction of the name on.
fn merged_header(cursors: &Cursors, name: &FileName) -> LtxHeader
    requires some { 0 < length cursors.now.cursors.items }
    requires named { IsName name.now.level name.now.min name.now.max }
    ensures valid { IsHeader result }
    ensures merges { MergesHeader cursors.now name.now result }
{
    let last = *cursors.cursors[cursors.cursors.len() - 1].reader.header();
    LtxHeader {
        min: name.min,
        max: name.max,
        index: true,
        ..last
    }
}

/// Merges the files of a plan into the file of this name, which spans their transactions.
fn merge_files<S: Disk, L: Ledger>(
    alloc: Global,
    store: &mut S,
    plan: &[FileName],
    name: &FileName,
    blank: Blank,
) -> Result<(), MergeFault>
    requires spans { Spans plan.now name.now.min name.now.max }
    requires named { IsName name.now.level name.now.min name.now.max }
    requires name { blank.name ≡ L.name }
    requires parts { blank.parts ≡ L.parts }
    requires some { 0 < blank.parts }
    ensures ok { OnOk result (GoesOn (S.told store.old) (S.told store.new)
        (HasMergedPlan plan.now (path_of name.now))) }
    ensures err { IfErr result (λ fault. GoesOn (S.told store.old) (S.told store.new) (LeavesPlan
        name.now.min plan.now (path_of name.now) fault)) }
    ensures same_folder { S.folder store.new ≡ S.folder store.old }
    ensures cause { MergeHasCause (S.fault_count store.old) (S.fault_count store.new) result }
{
    let mut steps = Steps::<L>::new(blank);
    let mut cursors = Cursors::begin(alloc, store, plan, &mut steps)?;
    let header = merged_header(&cursors, name);
    let mut draft = Draft::begin(alloc, store, name, &header)?;
    if let Err(fault) = copy_pages(&mut cursors, store, &mut draft, &header, &mut steps) {
        draft.abandon(store);
        return Err(fault);
    }
    draft.finish(store)
}

/// Merges the files of a run that is due by these names, and stores the merged file under the run's name. It has an
/// index, the place and the moment of the last file, as many pages as that leaves, and each page from the last file
/// that has it.
///
/// The files are read side by side, each once, and the page of each number in turn goes to a temporary file. Then that
/// is brought to the disk and given its name, and the names are brought to the disk. Memory is taken for small records
/// of each file, one page, and 4 bytes for each page that is written.
///
/// `Damaged` for the first file of the run that is damaged, or has another page size than the first, after the files
/// before it were read to their ends. `PageMissing` where none is damaged and the run begins with transaction 1: the
/// first file that doesn't fit what those before it make, and the first page that is missing there. `Store` for a
/// fault of the disk: the merged file may then be there, whole. `Memory` for want of it. No other name has changed
/// after a refusal; the temporary file may be there.
pub fn merge<S: Disk>(
    alloc: Global,
    store: &mut S,
    names: &[FileName],
    run: &Run,
) -> Result<FileName, MergeFault>
    requires in_order { IsListOrdered names.now }
    requires run { IsRun names.now run.now }
    requires named { IsName run.now.level run.now.min run.now.max }
    ensures name { IfOk result (IsNameOf run.now) }
    ensures merged { OnOk result (GoesOn (S.told store.old) (S.told store.new) (HasMerged names.now run.now)) }
    ensures err { IfErr result (λ fault. GoesOn (S.told store.old) (S.told store.new) (LeavesUnmerged
        names.now run.now fault)) }
    ensures same_folder { S.folder store.new ≡ S.folder store.old }
    ensures cause { MergeHasCause (S.fault_count store.old) (S.fault_count store.new) result }
{
    let Some(name) = FileName::new(run.level, run.min, run.max) else {
        unreachable!()
    };
    let files = files_of(alloc, names, run)?;
    merge_files::<S, Brand>(alloc, store, &files, &name, Blank::new(1))?;
    Ok(name)
}
