//! The pages of many files.

ghost use Rattle.std.specs.Prelude.{◌≡◌, ◌≢◌, ◌++◌, ◌∷◌, ◌≤◌, ◌<◌, ◌+◌, ◌*◌, [], ℕ, length, IfOk, IfErr, IfSome, OnOk};
ghost use Rattle.std.specs.Prelude.{IsErrOf};
ghost use Rattle.std.specs.Option.{IfNone};
ghost use Rattle.crash_disk.specs.Files.{files_after};
ghost use Rattle.crash_disk.specs.Told.{IfTold};
ghost use Rattle.page_cursors.specs.declared.fault.CursorsFault.TheVariants as fault;
ghost use Rattle.page_cursors.specs.Blocks.{Blocks};
ghost use Rattle.page_cursors.specs.Cursors.{HaveShape, AreReady, HaveGiven, HaveRead, AreTaking, HaveTaken};
ghost use Rattle.ltx_reader.specs.ReaderGiven.{GivesAtMost};
ghost use Rattle.page_cursors.specs.Cursors.{HaveAllRead, HaveAllTaken, IsUntouched, SamePlan, EndWith, plan_of};
ghost use Rattle.page_cursors.specs.Cursor.{HaveSize};
ghost use Rattle.page_cursors.specs.Costs.{Takes, AreCounted, nothing, plan_cost, left_of_all};
ghost use Rattle.page_cursors.specs.Opening.{HaveBegun};
ghost use Rattle.page_cursors.specs.Queue.{Waits, AreFresh};
ghost use Rattle.page_cursors.specs.Fault.{CursorsHaveCause, Blames, TellsNoMissing};

use crate::cursor::{Cursor, ask_at, give_at};
use crate::ending::{LARGEST_PAGE, damage_at, lacking, odd_fault};
use crate::fault::CursorsFault;
use crate::opening::{Opened, open};
use crate::waiting::Waiting;
use crash_disk::Disk;
use ls_base::{PageSize, Steps};
use ltx_reader::ReadFault;
use replica_store::FileName;
use std::alloc::Global;
use std::sync::ledger::Ledger;

/// The files of a plan, whose pages are given by rising number, each from the last file that has it. One page is
/// held in memory.
#[derive(Drop)]
pub struct Cursors {
    pub cursors: Vec<Cursor>,
    pub waiting: Waiting,
    pub page: Vec<u8>,
    pub size: PageSize,
    /// How many pages the last file leaves.
    pub commit: u32,
    /// The number of the page that was given last, 0 before the first.
    pub last: u32,
}

impl Cursors {
    /// Opens the files of the plan. `Damaged` where a header, a name or a page size shows that a file is damaged,
    /// with the first damaged file of all; `Store` for a fault of the disk. `Memory` for want of it, and then at
    /// most the headers were read. All memory is taken here.
    pub fn begin<S: Disk, L: Ledger>(
        alloc: Global,
        store: &mut S,
        plan: &[FileName],
        steps: &mut Steps<L>,
    ) -> Result<Cursors, CursorsFault>
        requires some { plan.now ≢ [] }
        ensures ready { IfOk result (λ cursors. AreReady cursors) }
        ensures begun { IfOk result (λ cursors. IfTold (S.told store.old) (λ events. HaveGiven
            (files_after events) cursors [])) }
        ensures plan { IfOk result (λ cursors. plan_of cursors ≡ plan.now) }
        ensures explained { IfErr result (Blames (S.told store.old) plan.now) }
        ensures counted { IfOk result (λ cursors. IfTold (S.told store.old) (λ events. AreCounted
            (files_after events) cursors.cursors.items)) }
        ensures takes { IfOk result (λ cursors. IfTold (S.told store.old) (λ events. Takes
            (plan_cost (files_after events) plan.now) (left_of_all (files_after events) cursors.cursors.items)
            steps.old steps.new (S.given store.old) (S.given store.new))) }
        ensures spends { IfErr result (λ _. IfTold (S.told store.old) (λ events. Takes
            (plan_cost (files_after events) plan.now) nothing
            steps.old steps.new (S.given store.old) (S.given store.new))) }
        ensures little { IsErrOf result fault.Memory → GivesAtMost (100 * length plan.now)
            (S.given store.old) (S.given store.new) }
        ensures no_missing { TellsNoMissing result }
        ensures unchanged { S.told store.new ≡ S.told store.old }
        ensures same_folder { S.folder store.new ≡ S.folder store.old }
        ensures cause { CursorsHaveCause (S.fault_count store.old) (S.fault_count store.new) result }
    {
        let waiting = Waiting::new(alloc, plan.len())?;
        let mut page = vec![in alloc; 0u8; LARGEST_PAGE]?;
        let Opened { mut cursors, odd } = open(alloc, store, plan)?;
        if let Some(odd) = odd {
            return Err(odd_fault(&mut cursors, store, odd, &mut page, steps));
        }
        let mut begun = Cursors::stand(cursors, waiting, page);
        begun.start(store, steps)?;
        Ok(begun)
    }

    /// The cursors of files that were opened, before any was asked for its first number.
    fn stand(cursors: Vec<Cursor>, waiting: Waiting, mut page: Vec<u8>) -> Cursors
        requires some { 0 < length cursors.items }
        requires one_size { (size : ℕ) × HaveSize size cursors.items }
        requires count { length waiting.numbers ≡ length cursors.items }
        requires room { length page.items ≡ LARGEST_PAGE }
        ensures shape { HaveShape result }
        ensures ends { EndWith result }
        ensures last { result.last ≡ 0 }
        ensures same_cursors { result.cursors.items ≡ cursors.items }
        ensures same_waiting { result.waiting ≡ waiting }
    {
        let first = *cursors[0].reader.header();
        page.truncate(first.size.get() as usize);
        let at = cursors.len() - 1;
        let last = *cursors[at].reader.header();
        Cursors {
            cursors,
            waiting,
            page,
            size: first.size,
            commit: last.commit,
            last: 0,
        }
    }

    /// Asks each file for its first number.
    fn start<S: Disk, L: Ledger>(
        &mut self,
        store: &mut S,
        steps: &mut Steps<L>,
    ) -> Result<(), CursorsFault>
        requires shape { HaveShape self.old }
        requires room { length self.old.cursors.items ≤ self.old.waiting.room }
        requires start { (self.old.last ≡ 0) × AreFresh 0 self.old.waiting.numbers }
        ensures ready { IfOk result (λ _. AreReady self.new) }
        ensures begun { IfOk result (λ _. IfTold (S.told store.old) (λ events. HaveBegun
            (files_after events) self.old.size 0 self.old.cursors.items → EndWith self.old
            → HaveGiven (files_after events) self.new [])) }
        ensures explained { IfErr result (λ e. IfTold (S.told store.old) (λ events. HaveBegun
            (files_after events) self.old.size 0 self.old.cursors.items
            → Blames (S.told store.old) (plan_of self.old) e)) }
        ensures same { OnOk result (SamePlan self.old self.new) }
        ensures takes { IfOk result (λ _. IfTold (S.told store.old) (λ events.
            AreCounted (files_after events) self.old.cursors.items
            → AreCounted (files_after events) self.new.cursors.items
            × Takes (left_of_all (files_after events) self.old.cursors.items)
            (left_of_all (files_after events) self.new.cursors.items)
            steps.old steps.new (S.given store.old) (S.given store.new))) }
        ensures spends { IfErr result (λ _. IfTold (S.told store.old) (λ events.
            AreCounted (files_after events) self.old.cursors.items
            → Takes (left_of_all (files_after events) self.old.cursors.items) nothing
            steps.old steps.new (S.given store.old) (S.given store.new))) }
        ensures no_memory { IsErrOf result fault.Memory → ⊥ }
        ensures no_missing { TellsNoMissing result }
        ensures unchanged { S.told store.new ≡ S.told store.old }
        ensures same_folder { S.folder store.new ≡ S.folder store.old }
        ensures cause { CursorsHaveCause (S.fault_count store.old) (S.fault_count store.new) result }
    {
        for place in 0..self.cursors.len() {
            let next = match ask_at(&mut self.cursors, place, store) {
                Ok(next) => next,
                Err(ReadFault::Fault(fault)) => {
                    return Err(damage_at(
                        &mut self.cursors,
                        store,
                        place,
                        fault,
                        &mut self.page,
                        steps,
                    ));
                }
                Err(ReadFault::Disk(fault)) => return Err(CursorsFault::Store(fault)),
                Err(ReadFault::Memory) => unreachable!(),
            };
            self.waiting.put_above(place, 0, next);
        }
        Ok(())
    }

    /// Takes the page of this number, the least, from the earliest file that waits with it, and answers the file's
    /// place; `None` where none does.
    fn take<S: Disk, L: Ledger>(
        &mut self,
        store: &mut S,
        number: u32,
        steps: &mut Steps<L>,
    ) -> Result<Option<usize>, CursorsFault>
        requires taking { (from : ℕ) × AreTaking self.old number from }
        ensures taking { (from : ℕ) → AreTaking self.old number from
            → IfOk result (λ taken. IfSome taken (λ place. (from ≤ place) ×
            (place < length self.old.cursors.items) × AreTaking self.new number (place + 1))) }
        ensures takes { IfOk result (λ taken. IfSome taken (λ place. IfTold (S.told store.old) (λ events. (from : ℕ)
            (given : Blocks) → AreTaking self.old number from
            → HaveTaken (files_after events) self.old number from given
            → HaveTaken (files_after events) self.new number (place + 1) given))) }
        ensures none { IfOk result (λ taken. IfNone taken (IsUntouched self.old self.new × ((place : ℕ)
            → Waits self.old.waiting.numbers place number → ⊥))) }
        ensures explained { IfErr result (λ e. IfTold (S.told store.old) (λ events. (from : ℕ) (given : Blocks)
            → HaveTaken (files_after events) self.old number from given
            → Blames (S.told store.old) (plan_of self.old) e)) }
        ensures same { OnOk result (SamePlan self.old self.new) }
        ensures costs { IfOk result (λ _. IfTold (S.told store.old) (λ events.
            AreCounted (files_after events) self.old.cursors.items
            → AreCounted (files_after events) self.new.cursors.items
            × Takes (left_of_all (files_after events) self.old.cursors.items)
            (left_of_all (files_after events) self.new.cursors.items)
            steps.old steps.new (S.given store.old) (S.given store.new))) }
        ensures spends { IfErr result (λ _. IfTold (S.told store.old) (λ events.
            AreCounted (files_after events) self.old.cursors.items
            → Takes (left_of_all (files_after events) self.old.cursors.items) nothing
            steps.old steps.new (S.given store.old) (S.given store.new))) }
        ensures no_memory { IsErrOf result fault.Memory → ⊥ }
        ensures no_missing { TellsNoMissing result }
        ensures unchanged { S.told store.new ≡ S.told store.old }
        ensures same_folder { S.folder store.new ≡ S.folder store.old }
        ensures cause { CursorsHaveCause (S.fault_count store.old) (S.fault_count store.new) result }
    {
        let Some(place) = self.waiting.pop_with(number) else {
            return Ok(None);
        };
        let next = match give_at(
            &mut self.cursors,
            place,
            store,
            number,
            &mut self.page,
            steps,
        ) {
            Ok(next) => next,
            Err(ReadFault::Fault(fault)) => {
                return Err(damage_at(
                    &mut self.cursors,
                    store,
                    place,
                    fault,
                    &mut self.page,
                    steps,
                ));
            }
            Err(ReadFault::Disk(fault)) => return Err(CursorsFault::Store(fault)),
            Err(ReadFault::Memory) => unreachable!(),
        };
        self.waiting.put_above(place, number, next);
        Ok(Some(place))
    }

    /// Takes the page of this number, the least, from each file that waits with it.
    fn take_all<S: Disk, L: Ledger>(
        &mut self,
        store: &mut S,
        number: u32,
        steps: &mut Steps<L>,
    ) -> Result<(), CursorsFault>
        requires taking { AreTaking self.old number 0 }
        requires waits { (place : ℕ) × Waits self.old.waiting.numbers place number }
        ensures taken { IfOk result (λ _. HaveAllTaken (S.told store.old) self.old self.new number) }
        ensures explained { IfErr result (λ e. IfTold (S.told store.old) (λ events. (given : Blocks)
            → HaveTaken (files_after events) self.old number 0 given
            → Blames (S.told store.old) (plan_of self.old) e)) }
        ensures same { OnOk result (SamePlan self.old self.new) }
        ensures takes { IfOk result (λ _. IfTold (S.told store.old) (λ events.
            AreCounted (files_after events) self.old.cursors.items
            → AreCounted (files_after events) self.new.cursors.items
            × Takes (left_of_all (files_after events) self.old.cursors.items)
            (left_of_all (files_after events) self.new.cursors.items)
            steps.old steps.new (S.given store.old) (S.given store.new))) }
        ensures spends { IfErr result (λ _. IfTold (S.told store.old) (λ events.
            AreCounted (files_after events) self.old.cursors.items
            → Takes (left_of_all (files_after events) self.old.cursors.items) nothing
            steps.old steps.new (S.given store.old) (S.given store.new))) }
        ensures no_memory { IsErrOf result fault.Memory → ⊥ }
        ensures no_missing { TellsNoMissing result }
        ensures unchanged { S.told store.new ≡ S.told store.old }
        ensures same_folder { S.folder store.new ≡ S.folder store.old }
        ensures cause { CursorsHaveCause (S.fault_count store.old) (S.fault_count store.new) result }
    {
        // Each file has at most one page of the number.
        for _ in 0..self.cursors.len() {
            if self.take(store, number, steps)?.is_none() {
                return Ok(());
            }
        }
        Ok(())
    }

    /// Gives the page of the next number, the last file's that has it, which stands in `page` then. `None` behind
    /// the last page, where all files were read to their ends, none is damaged and none lacks a page that it must
    /// hold. Otherwise the first damaged file, with its first fault, or where none is damaged the first file that
    /// lacks a page; `Store` for a fault of the disk. Takes no memory, and never answers `Memory`.
    pub fn next<S: Disk, L: Ledger>(
        &mut self,
        store: &mut S,
        steps: &mut Steps<L>,
    ) -> Result<Option<u32>, CursorsFault>
        requires ready { AreReady self.old }
        ensures ready { IfOk result (λ _. AreReady self.new) }
        ensures rises { IfOk result (λ next. IfSome next (λ number. (self.old.last < number) ×
            (self.new.last ≡ number))) }
        ensures gives { IfOk result (λ next. IfSome next (λ number. IfTold (S.told store.old) (λ events.
            (given : Blocks) → HaveGiven (files_after events) self.old given
            → HaveGiven (files_after events) self.new (given ++ (number, self.new.page.items) ∷ [])))) }
        ensures ended { IfOk result (λ next. IfNone next (IfTold (S.told store.old) (λ events. (given : Blocks)
            → HaveGiven (files_after events) self.old given → HaveRead (files_after events) self.old given))) }
        ensures explained { IfErr result (λ e. IfTold (S.told store.old) (λ events. (given : Blocks)
            → HaveGiven (files_after events) self.old given → Blames (S.told store.old) (plan_of self.old) e)) }
        ensures takes { IfOk result (λ _. IfTold (S.told store.old) (λ events.
            AreCounted (files_after events) self.old.cursors.items
            → AreCounted (files_after events) self.new.cursors.items
            × Takes (left_of_all (files_after events) self.old.cursors.items)
            (left_of_all (files_after events) self.new.cursors.items)
            steps.old steps.new (S.given store.old) (S.given store.new))) }
        ensures spends { IfErr result (λ _. IfTold (S.told store.old) (λ events.
            AreCounted (files_after events) self.old.cursors.items
            → Takes (left_of_all (files_after events) self.old.cursors.items) nothing
            steps.old steps.new (S.given store.old) (S.given store.new))) }
        ensures no_memory { IsErrOf result fault.Memory → ⊥ }
        ensures same { OnOk result (SamePlan self.old self.new) }
        ensures unchanged { S.told store.new ≡ S.told store.old }
        ensures same_folder { S.folder store.new ≡ S.folder store.old }
        ensures cause { CursorsHaveCause (S.fault_count store.old) (S.fault_count store.new) result }
    {
        let Some(number) = self.waiting.least() else {
            lacking(&self.cursors)?;
            return Ok(None);
        };
        self.take_all(store, number, steps)?;
        self.last = number;
        Ok(Some(number))
    }

    /// The same for files that need not make a state from nothing: no page of them is missing, and `None` says that
    /// all files were read to their ends and that none is damaged.
    pub fn next_of_run<S: Disk, L: Ledger>(
        &mut self,
        store: &mut S,
        steps: &mut Steps<L>,
    ) -> Result<Option<u32>, CursorsFault>
        requires ready { AreReady self.old }
        ensures ready { IfOk result (λ _. AreReady self.new) }
        ensures rises { IfOk result (λ next. IfSome next (λ number. (self.old.last < number) ×
            (self.new.last ≡ number))) }
        ensures gives { IfOk result (λ next. IfSome next (λ number. IfTold (S.told store.old) (λ events.
            (given : Blocks) → HaveGiven (files_after events) self.old given
            → HaveGiven (files_after events) self.new (given ++ (number, self.new.page.items) ∷ [])))) }
        ensures ended { IfOk result (λ next. IfNone next (IfTold (S.told store.old) (λ events. (given : Blocks)
            → HaveGiven (files_after events) self.old given → HaveAllRead (files_after events) self.old given))) }
        ensures explained { IfErr result (λ e. IfTold (S.told store.old) (λ events. (given : Blocks)
            → HaveGiven (files_after events) self.old given → Blames (S.told store.old) (plan_of self.old) e)) }
        ensures no_memory { IsErrOf result fault.Memory → ⊥ }
        ensures no_missing { TellsNoMissing result }
        ensures same { OnOk result (SamePlan self.old self.new) }
        ensures unchanged { S.told store.new ≡ S.told store.old }
        ensures same_folder { S.folder store.new ≡ S.folder store.old }
        ensures cause { CursorsHaveCause (S.fault_count store.old) (S.fault_count store.new) result }
    {
        let Some(number) = self.waiting.least() else {
            return Ok(None);
        };
        self.take_all(store, number, steps)?;
        self.last = number;
        Ok(Some(number))
    }
}
