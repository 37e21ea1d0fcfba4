//! What follows from the rules of crashes, whatever was done to a disk.

ghost use Rattle.crash_disk.specs.CrashLaws.{ReadFilesAreAnImage, SyncedDiskHasOneImage, CrashedDiskHasOneImage};
ghost use Rattle.crash_disk.specs.CrashLaws.{PutIsCrashSafe};

/// A crash may leave the files as they read.
pub fn read_files_are_an_image()
    ensures { ReadFilesAreAnImage }
{}

/// After a sync of each file that is there and of the names, a crash leaves the files as they read.
pub fn synced_disk_has_one_image()
    ensures { SyncedDiskHasOneImage }
{}

/// A second crash leaves what the first one left.
pub fn crashed_disk_has_one_image()
    ensures { CrashedDiskHasOneImage }
{}

/// A file that is written under another name, synced and renamed before the names are synced is there
/// whole or not at all, whenever a crash comes, and whole afterwards.
pub fn put_is_crash_safe()
    ensures { PutIsCrashSafe }
{}
