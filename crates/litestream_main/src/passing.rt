//! A pass over the log of a database at rest.

ghost use Rattle.std.specs.Prelude.{◌≡◌, ◌≢◌};

use checkpointer::{BackfillFault, RestartFault, backfill, restart};
use file_disk::FileDisk;
use live_gate::Pass;
use ls_base::{Mark, Place};
use std::alloc::Global;
use std::io::{self, ErrorKind};

/// Copies the log up to the end of the place into the database file, and empties it. Kept where no commit of the log
/// ends there, or that of the place isn't its last one: no view of the database has changed then.
pub fn pass_over(
    alloc: Global,
    disk: &mut FileDisk,
    database: &str,
    log: &str,
    place: &Place,
) -> io::Result<Pass>
    requires apart { database.now ≢ log.now }
{
    let Place::Wal { end, .. } = *place else {
        return Ok(Pass::Kept);
    };
    let copied = match backfill(alloc, disk, database, log, end) {
        Ok(copied) => copied,
        Err(BackfillFault::NotMark) => return Ok(Pass::Kept),
        Err(BackfillFault::Memory) => return Err(ErrorKind::OutOfMemory.into()),
        Err(BackfillFault::Disk(_)) => return Err(ErrorKind::Other.into()),
    };
    if place_of(copied.mark()) != *place {
        return Ok(Pass::Kept);
    }
    match restart(disk, database, log, copied) {
        Ok(()) => Ok(Pass::Passed),
        Err(RestartFault::Grown(_)) => Ok(Pass::Kept),
        Err(RestartFault::Disk(_)) => Err(ErrorKind::Other.into()),
    }
}

/// The place behind a commit of the log.
fn place_of(mark: &Mark) -> Place {
    Place::Wal {
        salt1: mark.salt1,
        salt2: mark.salt2,
        end: mark.end,
        s0: mark.s0,
        s1: mark.s1,
    }
}
