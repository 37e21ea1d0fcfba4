//! The pages of a plan's files, put into the output one after another.

ghost use Rattle.std.specs.Prelude.{◌≡◌, ◌≢◌, ◌<◌, ◌≤◌, ◌^◌, [], length, IfOk, IfErr, OnOk, OnErr};
ghost use Rattle.ls_base.specs.Fault.{HasCause};
ghost use Rattle.crash_disk.specs.Files.{IsThere, files_after};
ghost use Rattle.crash_disk.specs.GoesOn.{GoesOn};
ghost use Rattle.crash_disk.specs.Told.{IfTold};
ghost use Rattle.page_cursors.specs.Cursors.{AreReady, HaveGiven, plan_of};
ghost use Rattle.page_cursors.specs.Costs.{AreCounted, Takes, left_of_all, nothing};
ghost use Rattle.restore_apply.specs.Pages.{lock_between, bytes_put, last_put};
ghost use Rattle.restore_apply.specs.Writing.{PutsPages, RestsOn};
ghost use Rattle.restore_apply.specs.Staging.{OnlyAppends, AppendsGathered};

use crate::gathered::Gathered;
use crate::restored::RestoreFault;
use crash_disk::{Disk, DiskFault};
use ls_base::{PageSize, Steps};
use page_cursors::Cursors;
use std::sync::ledger::Ledger;

/// Gathers zeros for the lock page where it lies between the two numbers: no file has that page.
pub fn put_lock_page<D: Disk>(
    disk: &mut D,
    name: &str,
    size: PageSize,
    last: u32,
    next: u64,
    gathered: &mut Gathered,
) -> Result<(), DiskFault>
    requires there { IfTold (D.told disk.old) (λ events. IsThere events name.now) }
    ensures ok { OnOk result (GoesOn (D.told disk.old) (D.told disk.new) (AppendsGathered name.now gathered.old
        (lock_between size last next) gathered.new)) }
    ensures err { OnErr result (GoesOn (D.told disk.old) (D.told disk.new) (OnlyAppends name.now)) }
    ensures same_folder { D.folder disk.new ≡ D.folder disk.old }
    ensures cause { HasCause (D.fault_count disk.old) (D.fault_count disk.new) result }
{
    let lock = size.lock_page();
    if last < lock && u64::from(lock) < next {
        return gathered.put_zeros(disk, name, size.get() as usize);
    }
    Ok(())
}

/// Gathers the page that the cursors gave last, where it stands in the output, behind the page of this number. Answers
/// the number of the page that was gathered last.
fn put_page<D: Disk>(
    disk: &mut D,
    name: &str,
    cursors: &Cursors,
    last: u32,
    gathered: &mut Gathered,
) -> Result<u32, DiskFault>
    requires there { IfTold (D.told disk.old) (λ events. IsThere events name.now) }
    requires sized { length cursors.now.page.items ≡ cursors.now.size }
    ensures last { IfOk result (λ now. now ≡ last_put cursors.now.size cursors.now.commit last cursors.now.last) }
    ensures ok { OnOk result (GoesOn (D.told disk.old) (D.told disk.new) (AppendsGathered name.now gathered.old
        (bytes_put cursors.now.size cursors.now.commit last cursors.now.last cursors.now.page.items) gathered.new)) }
    ensures err { OnErr result (GoesOn (D.told disk.old) (D.told disk.new) (OnlyAppends name.now)) }
    ensures same_folder { D.folder disk.new ≡ D.folder disk.old }
    ensures cause { HasCause (D.fault_count disk.old) (D.fault_count disk.new) result }
{
    let number = cursors.last;
    let size = cursors.size;
    if number <= cursors.commit && number != size.lock_page() {
        put_lock_page(disk, name, size, last, u64::from(number), gathered)?;
        gathered.put(disk, name, &cursors.page[..size.get() as usize])?;
        return Ok(number);
    }
    Ok(last)
}

/// Gathers the pages that the cursors give, up to the last file's size. The cursors go to the ends of all files.
pub fn put_pages<S: Disk, T: Disk, L: Ledger>(
    cursors: &mut Cursors,
    store: &mut S,
    target: &mut T,
    name: &str,
    gathered: &mut Gathered,
    steps: &mut Steps<L>,
) -> Result<(), RestoreFault>
    requires ready { AreReady cursors.old }
    requires given { IfTold (S.told store.old) (λ events. HaveGiven (files_after events) cursors.old []) }
    requires there { IfTold (T.told target.old) (λ events. IsThere events name.now) }
    ensures ok { IfOk result (λ _. PutsPages (S.told store.old) cursors.old name.now gathered.old gathered.new
        (T.told target.old) (T.told target.new)) }
    ensures err { OnErr result (GoesOn (T.told target.old) (T.told target.new) (OnlyAppends name.now)) }
    ensures rests { IfErr result (RestsOn (S.told store.old) (plan_of cursors.old) (S.fault_count store.old)
        (S.fault_count store.new) (T.fault_count target.old) (T.fault_count target.new)) }
    ensures takes { IfTold (S.told store.old) (λ events. AreCounted (files_after events) cursors.old.cursors.items
        → Takes (left_of_all (files_after events) cursors.old.cursors.items) nothing
        steps.old steps.new (S.given store.old) (S.given store.new)) }
    ensures store_unchanged { S.told store.new ≡ S.told store.old }
    ensures same_folder { S.folder store.new ≡ S.folder store.old }
    ensures same_target_folder { T.folder target.new ≡ T.folder target.old }
    ensures store_later { S.fault_count store.old ≤ S.fault_count store.new }
    ensures target_later { T.fault_count target.old ≤ T.fault_count target.new }
{
    let mut last = 0;
    while let Some(_) = cursors.next(store, steps)? {
        last = put_page(target, name, cursors, last, gathered)?;
    }
    let end = u64::from(cursors.commit) + 1;
    put_lock_page(target, name, cursors.size, last, end, gathered)?;
    Ok(())
}
