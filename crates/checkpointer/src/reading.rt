//! Reading a log on, piece by piece.

ghost use Rattle.std.specs.Prelude.{◌≡◌, ℕ, ◌+◌, ◌-◌, ◌<◌, ◌^◌, ◌≤◌, ◌++◌, List, length, take, drop, IfOk, OnOk};
ghost use Rattle.ls_base.specs.Fault.{HasCause};
ghost use Rattle.crash_disk.specs.Told.{IfTold};
ghost use Rattle.wal_frames.specs.Scanned.{HasTaken};
ghost use Rattle.checkpointer.specs.PairState.{bytes_at};
ghost use Rattle.checkpointer.specs.Reading.{IsPiece, ReadsOn, IsNewer};

use crash_disk::{Disk, DiskFault};
use ls_base::Mark;
use wal_frames::{Fed, Scan};

/// Fills the front of the buffer with the file's bytes from `at` on, up to `end`, and answers how many they are.
pub(crate) fn next_piece<D: Disk>(
    disk: &mut D,
    name: &str,
    at: u64,
    end: u64,
    buffer: &mut [u8],
) -> Result<usize, DiskFault>
    requires before { at < end }
    requires room { 0 < length buffer.old }
    ensures bound { IfOk result (λ n. (n ≤ length buffer.new) × (at + n ≤ end)) }
    ensures piece { IfOk result (λ n. IfTold (D.told disk.old) (λ events.
        IsPiece (bytes_at events name.now) at end buffer.new n)) }
    ensures unchanged { D.told disk.new ≡ D.told disk.old }
    ensures same_folder { D.folder disk.new ≡ D.folder disk.old }
    ensures cause { HasCause (D.fault_count disk.old) (D.fault_count disk.new) result }
{
    let count = disk.read_at(name, at, buffer)?;
    Ok((count as u64).min(end - at) as usize)
}

/// Feeds all bytes to the scan.
pub(crate) fn feed_all(scan: &mut Scan, bytes: &[u8])
    requires { scan.old.taken + length bytes.now < 2 ^ 63 }
    ensures value { (log : List ℕ) → HasTaken scan.old log → HasTaken scan.new (log ++ bytes.now) }
    ensures taken { scan.new.taken ≡ scan.old.taken + length bytes.now }
    ensures head { scan.new.head ≡ scan.old.head }
{
    let mut rest = bytes;
    while let Fed::Frame { taken, .. } = scan.feed(rest) {
        rest = &rest[taken..];
    }
}

/// Feeds the scan the bytes of the log from `from` on, up to `end`.
pub(crate) fn scan_on<D: Disk>(
    disk: &mut D,
    wal: &str,
    scan: &mut Scan,
    from: u64,
    end: u64,
    buffer: &mut [u8],
) -> Result<(), DiskFault>
    requires stands { scan.old.taken + 32 ≡ from }
    requires bound { end < 2 ^ 63 }
    requires room { 0 < length buffer.old }
    ensures value { OnOk result (IfTold (D.told disk.old) (λ events.
        ReadsOn (bytes_at events wal.now) from end scan.old scan.new)) }
    ensures head { scan.new.head ≡ scan.old.head }
    ensures unchanged { D.told disk.new ≡ D.told disk.old }
    ensures same_folder { D.folder disk.new ≡ D.folder disk.old }
    ensures cause { HasCause (D.fault_count disk.old) (D.fault_count disk.new) result }
{
    let mut at = from;
    while at < end {
        let count = next_piece(disk, wal, at, end, buffer)?;
        if count == 0 {
            return Ok(());
        }
        feed_all(scan, &buffer[..count]);
        at += count as u64;
    }
    Ok(())
}

/// The last mark of the log, where that is behind `from`, at which its scan stands.
pub(crate) fn newer_mark<D: Disk>(
    disk: &mut D,
    wal: &str,
    scan: &mut Scan,
    from: u64,
    buffer: &mut [u8],
) -> Result<Option<Mark>, DiskFault>
    requires stands { scan.old.taken + 32 ≡ from }
    requires room { 0 < length buffer.old }
    ensures value { IfOk result (λ newer. IfTold (D.told disk.old) (λ events.
        IsNewer (bytes_at events wal.now) from scan.old newer)) }
    ensures head { scan.new.head ≡ scan.old.head }
    ensures unchanged { D.told disk.new ≡ D.told disk.old }
    ensures same_folder { D.folder disk.new ≡ D.folder disk.old }
    ensures cause { HasCause (D.fault_count disk.old) (D.fault_count disk.new) result }
{
    let end = disk.size(wal)?.unwrap_or(0);
    scan_on(disk, wal, scan, from, end, buffer)?;
    let Some(last) = scan.last() else {
        return Ok(None);
    };
    if last.end > from {
        return Ok(Some(last));
    }
    Ok(None)
}
