//! The frames of a log up to a mark copied into the database file.

ghost use Rattle.std.specs.Prelude.{◌≡◌, ◌≢◌, ◌≤◌, length, IfOk, OnOk, OnErr, IsErrOf};
ghost use Rattle.crash_disk.specs.Files.{IsThere};
ghost use Rattle.crash_disk.specs.GoesOn.{GoesOn};
ghost use Rattle.crash_disk.specs.Told.{IfTold};
ghost use Rattle.wal_frames.specs.Scanned.{scanned_to};
ghost use Rattle.checkpointer.specs.declared.fault.BackfillFault.TheVariants.{NotMark, Memory};
ghost use Rattle.checkpointer.specs.Backfill.{Backfills};
ghost use Rattle.checkpointer.specs.Copying.{AreWithin, CopiesFound, MayCopyFound};
ghost use Rattle.checkpointer.specs.Fault.{BackfillHasCause};
ghost use Rattle.checkpointer.specs.PairState.{AreNamed, bytes_at};
ghost use Rattle.checkpointer.specs.Restart.{MayRestart};

use crate::copied::Copied;
use crate::copying::{copy_pages, set_length};
use crate::fault::BackfillFault;
use crate::finding::{Found, find};
use crash_disk::Disk;
use std::alloc::Global;

/// Copies the pages, sets the length and syncs the file.
fn copy_found<D: Disk>(
    disk: &mut D,
    db: &str,
    wal: &str,
    found: Found,
) -> Result<Copied, BackfillFault>
    requires apart { db.now ≢ wal.now }
    requires there { IfTold (D.told disk.old) (λ events. IsThere events db.now) }
    requires stands { (found.scan ≡ scanned_to found.scan.head found.mark) × (32 ≤ found.mark.end) }
    requires room { length found.buffer.items ≡ 65536 }
    ensures copied { IfOk result (λ copied. (copied.head ≡ found.scan.head) × (copied.mark ≡ found.mark)) }
    ensures ok { OnOk result
        (GoesOn (D.told disk.old) (D.told disk.new)
        (CopiesFound db.now wal.now found.size found.mark.commit found.pages found.is_last)) }
    ensures err { OnErr result
        (GoesOn (D.told disk.old) (D.told disk.new)
        (MayCopyFound db.now wal.now found.size found.mark.commit found.pages found.is_last)) }
    ensures whole { IfTold (D.told disk.old) (λ events.
        AreWithin found.size found.pages (bytes_at events wal.now) → IsErrOf result NotMark → ⊥) }
    ensures memory { IsErrOf result Memory → ⊥ }
    ensures same_folder { D.folder disk.new ≡ D.folder disk.old }
    ensures cause { BackfillHasCause (D.fault_count disk.old) (D.fault_count disk.new) result }
{
    let Found {
        scan,
        pages,
        mark,
        size,
        is_last,
        mut buffer,
    } = found;
    let page = &mut buffer.as_mut_slice()[..size.get() as usize];
    match copy_pages(disk, db, wal, &pages, mark.commit, &size, page) {
        Err(fault) => return Err(fault),
        Ok(()) => {}
    }
    let bytes = u64::from(mark.commit) * u64::from(size.get());
    match set_length(disk, db, bytes, is_last) {
        Err(fault) => return Err(BackfillFault::Disk(fault)),
        Ok(()) => {}
    }
    match disk.sync(db) {
        Err(fault) => Err(BackfillFault::Disk(fault)),
        Ok(()) => Ok(Copied { scan, mark, buffer }),
    }
}

/// Copies the frames of the log up to the commit that ends at the offset into the database file.
///
/// Both files have to be there, with no change of either name since the names were synced. The log is synced first,
/// then each page that the commit has, but the lock page, is written as it is in its last frame up to the offset.
/// The file is cut to the commit's size where that is the last one of the log, else it is only let grow to it, and
/// synced. All memory is taken before the first write.
///
/// The state of the two files stays as it was, as read and in whatever a crash leaves from then on. A crash before
/// leaves one that it would have left before, where each page that the log leaves to the file is whole in that.
///
/// `NotMark` exactly where no commit of the log ends at the offset; `Memory` for want of it: no byte of a file has
/// changed then. `Disk` where the disk failed.
pub fn backfill<D: Disk>(
    alloc: Global,
    disk: &mut D,
    db: &str,
    wal: &str,
    upto: u64,
) -> Result<Copied, BackfillFault>
    requires apart { db.now ≢ wal.now }
    requires named { IfTold (D.told disk.old) (λ events. AreNamed events db.now wal.now) }
    ensures value { GoesOn (D.told disk.old) (D.told disk.new) (Backfills db.now wal.now upto result) }
    ensures may_restart { IfOk result (λ copied. IfTold (D.told disk.new) (MayRestart db.now wal.now copied)) }
    ensures still_named { IfTold (D.told disk.new) (λ events. AreNamed events db.now wal.now) }
    ensures same_folder { D.folder disk.new ≡ D.folder disk.old }
    ensures cause { BackfillHasCause (D.fault_count disk.old) (D.fault_count disk.new) result }
{
    match disk.sync(wal) {
        Err(fault) => return Err(BackfillFault::Disk(fault)),
        Ok(()) => {}
    }
    let found = match find(alloc, disk, wal, upto) {
        Err(fault) => return Err(fault),
        Ok(found) => found,
    };
    match copy_found(disk, db, wal, found) {
        Err(fault) => Err(fault),
        Ok(copied) => Ok(copied),
    }
}
