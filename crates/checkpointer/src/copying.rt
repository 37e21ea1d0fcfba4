//! Pages copied from a log into the database file.

ghost use Rattle.std.specs.Prelude.{◌≡◌, ◌≢◌, ◌+◌, ◌≤◌, length, OnOk, OnErr, IsErrOf};
ghost use Rattle.crash_disk.specs.Files.{IsThere};
ghost use Rattle.crash_disk.specs.GoesOn.{GoesOn};
ghost use Rattle.crash_disk.specs.Told.{IfTold};
ghost use Rattle.ls_base.specs.Fault.{HasCause};
ghost use Rattle.ls_base.specs.PageSize.{IsPageSize};
ghost use Rattle.checkpointer.specs.declared.fault.BackfillFault.TheVariants.{NotMark, Memory};
ghost use Rattle.checkpointer.specs.Copying.{WritesPage, MayWritePage, AreWithin, CopiesPages, MayCopyPages};
ghost use Rattle.checkpointer.specs.Copying.{SetsLength, MaySetLength};
ghost use Rattle.checkpointer.specs.Fault.{BackfillHasCause};
ghost use Rattle.checkpointer.specs.PairState.{bytes_at};

use crate::fault::BackfillFault;
use crash_disk::{Disk, DiskFault};
use ls_base::PageSize;
use std::collections::BTreeMap;

/// Copies the page of this number, which stands in the log from `at` on. `NotMark` where the log ended before;
/// nothing was written then.
pub(crate) fn copy_page<D: Disk>(
    disk: &mut D,
    db: &str,
    wal: &str,
    number: u32,
    at: u64,
    page: &mut [u8],
) -> Result<(), BackfillFault>
    requires there { IfTold (D.told disk.old) (λ events. IsThere events db.now) }
    requires number { 1 ≤ number }
    requires size { length page.old ≤ 65536 }
    ensures ok { OnOk result
        (GoesOn (D.told disk.old) (D.told disk.new) (WritesPage db.now wal.now (length page.old) number at)) }
    ensures err { OnErr result
        (GoesOn (D.told disk.old) (D.told disk.new) (MayWritePage db.now (length page.old) number)) }
    ensures whole { IfTold (D.told disk.old) (λ events.
        at + length page.old ≤ length (bytes_at events wal.now) → IsErrOf result NotMark → ⊥) }
    ensures memory { IsErrOf result Memory → ⊥ }
    ensures same_folder { D.folder disk.new ≡ D.folder disk.old }
    ensures cause { BackfillHasCause (D.fault_count disk.old) (D.fault_count disk.new) result }
{
    let count = match disk.read_at(wal, at, page) {
        Err(fault) => return Err(BackfillFault::Disk(fault)),
        Ok(count) => count,
    };
    if count < page.len() {
        return Err(BackfillFault::NotMark);
    }
    let start = u64::from(number - 1) * page.len() as u64;
    match disk.write_at(db, start, page) {
        Err(fault) => Err(BackfillFault::Disk(fault)),
        Ok(()) => Ok(()),
    }
}

/// Copies the pages up to the commit's size in pages, in the order of their numbers, but the lock page.
pub(crate) fn copy_pages<D: Disk>(
    disk: &mut D,
    db: &str,
    wal: &str,
    pages: &BTreeMap<u32, u64>,
    commit: u32,
    size: &PageSize,
    page: &mut [u8],
) -> Result<(), BackfillFault>
    requires apart { db.now ≢ wal.now }
    requires there { IfTold (D.told disk.old) (λ events. IsThere events db.now) }
    requires size { length page.old ≡ size.now }
    requires is_size { IsPageSize size.now }
    ensures ok { OnOk result
        (GoesOn (D.told disk.old) (D.told disk.new) (CopiesPages db.now wal.now size.now commit pages.now)) }
    ensures err { OnErr result
        (GoesOn (D.told disk.old) (D.told disk.new) (MayCopyPages db.now size.now commit pages.now)) }
    ensures whole { IfTold (D.told disk.old) (λ events.
        AreWithin size.now pages.now (bytes_at events wal.now) → IsErrOf result NotMark → ⊥) }
    ensures memory { IsErrOf result Memory → ⊥ }
    ensures same_folder { D.folder disk.new ≡ D.folder disk.old }
    ensures cause { BackfillHasCause (D.fault_count disk.old) (D.fault_count disk.new) result }
{
    let lock = size.lock_page();
    for (number, at) in pages.iter() {
        let number = *number;
        if 1 <= number && number <= commit && number != lock {
            match copy_page(disk, db, wal, number, *at, page) {
                Err(fault) => return Err(fault),
                Ok(()) => {}
            }
        }
    }
    Ok(())
}

/// Gives the file the length in bytes: cuts it where it may, and lets it grow else.
pub(crate) fn set_length<D: Disk>(
    disk: &mut D,
    db: &str,
    bytes: u64,
    may_shrink: bool,
) -> Result<(), DiskFault>
    requires there { IfTold (D.told disk.old) (λ events. IsThere events db.now) }
    ensures ok { OnOk result (GoesOn (D.told disk.old) (D.told disk.new) (SetsLength db.now bytes may_shrink)) }
    ensures err { OnErr result (GoesOn (D.told disk.old) (D.told disk.new) (MaySetLength db.now bytes may_shrink)) }
    ensures same_folder { D.folder disk.new ≡ D.folder disk.old }
    ensures cause { HasCause (D.fault_count disk.old) (D.fault_count disk.new) result }
{
    let now = disk.size(db)?.unwrap_or(0);
    if bytes <= now && !may_shrink {
        return Ok(());
    }
    match disk.cut(db, bytes) {
        Err(fault) => Err(fault),
        Ok(()) => Ok(()),
    }
}
