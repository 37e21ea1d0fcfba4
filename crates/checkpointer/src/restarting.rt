//! A log begun anew.

ghost use Rattle.std.specs.Prelude.{◌≡◌, ◌≢◌, OnOk, OnErr};
ghost use Rattle.ls_base.specs.Fault.{HasCause};
ghost use Rattle.crash_disk.specs.declared.event.Event.TheVariants.{Cut, Synced};
ghost use Rattle.crash_disk.specs.Files.{IsThere};
ghost use Rattle.crash_disk.specs.Told.{IfTold, gains, GainsOrNot};
ghost use Rattle.crash_disk.specs.GoesOn.{GoesOn};
ghost use Rattle.checkpointer.specs.Fault.{RestartHasCause};
ghost use Rattle.checkpointer.specs.Restart.{MayRestart, Restarts};

use crate::copied::Copied;
use crate::fault::RestartFault;
use crate::reading::newer_mark;
use crash_disk::{Disk, DiskFault};

/// Cuts the log to nothing and syncs it, where the database file has all of its commits.
///
/// Both files have to be there, with no change of either name since the names were synced. The log has to have
/// the copied mark still; where that is its last one, the database file has to be the view at it, as `backfill`
/// leaves it. Takes no memory.
///
/// `Grown` with the last mark of the log, exactly where that is behind the copied one; nothing was changed then.
/// `Disk` where the disk failed.
pub fn restart<D: Disk>(
    disk: &mut D,
    db: &str,
    wal: &str,
    copied: Copied,
) -> Result<(), RestartFault>
    requires apart { db.now ≢ wal.now }
    requires copied { IfTold (D.told disk.old) (MayRestart db.now wal.now copied) }
    ensures value { GoesOn (D.told disk.old) (D.told disk.new) (Restarts db.now wal.now copied result) }
    ensures same_folder { D.folder disk.new ≡ D.folder disk.old }
    ensures cause { RestartHasCause (D.fault_count disk.old) (D.fault_count disk.new) result }
{
    let Copied {
        mut scan,
        mark,
        mut buffer,
    } = copied;
    match newer_mark(disk, wal, &mut scan, mark.end, buffer.as_mut_slice()) {
        Err(fault) => return Err(RestartFault::Disk(fault)),
        Ok(Some(last)) => return Err(RestartFault::Grown(last)),
        Ok(None) => {}
    }
    match empty(disk, wal) {
        Err(fault) => Err(RestartFault::Disk(fault)),
        Ok(()) => Ok(()),
    }
}

/// Cuts the file to nothing and syncs it.
fn empty<D: Disk>(disk: &mut D, name: &str) -> Result<(), DiskFault>
    requires there { IfTold (D.told disk.old) (λ events. IsThere events name.now) }
    ensures ok { OnOk result (D.told disk.new ≡ gains (gains (D.told disk.old) (Cut name.now 0)) (Synced name.now)) }
    ensures err { OnErr result (GainsOrNot (D.told disk.old) (D.told disk.new) (Cut name.now 0)) }
    ensures same_folder { D.folder disk.new ≡ D.folder disk.old }
    ensures cause { HasCause (D.fault_count disk.old) (D.fault_count disk.new) result }
{
    disk.cut(name, 0)?;
    disk.sync(name)
}
