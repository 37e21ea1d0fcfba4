//! Bytes of a file on a disk, a few at a time.

ghost use Rattle.std.specs.Prelude.{◌≡◌, ◌+◌, ◌-◌, ◌^◌, ◌<◌, ◌≤◌, min, length, IfOk};
ghost use Rattle.ls_base.specs.Fault.{HasCause};
ghost use Rattle.ltx_reader.specs.Reader.{OfBytes, AreBytes};
ghost use Rattle.ltx_reader.specs.ReaderGiven.{GivesAtMost};
ghost use Rattle.ltx_reader.specs.ReaderSteps.{IsFilled};

use crash_disk::{Disk, DiskFault};

/// Fills the buffer from the offset `at` on, and answers how many bytes that gave: fewer than its length
/// exactly where the file ends before. A disk may give a reading in parts.
pub(crate) fn fill<D: Disk>(
    disk: &mut D,
    name: &str,
    at: u64,
    into: &mut [u8],
) -> Result<usize, DiskFault>
    requires fits { at + length into.old < 2 ^ 64 }
    ensures value { IfOk result (λ n. OfBytes (D.told disk.old) name.now
        (λ bytes. IsFilled bytes at (length into.old) into.new n)) }
    ensures are_bytes { AreBytes into.new }
    ensures bound { IfOk result (λ n. n ≤ length into.new) }
    ensures gave { OfBytes (D.told disk.old) name.now
        (λ bytes. GivesAtMost (min (length into.old) (length bytes - at)) (D.given disk.old) (D.given disk.new)) }
    ensures gave_room { GivesAtMost (length into.old) (D.given disk.old) (D.given disk.new) }
    ensures unchanged { D.told disk.new ≡ D.told disk.old }
    ensures same_folder { D.folder disk.new ≡ D.folder disk.old }
    ensures cause { HasCause (D.fault_count disk.old) (D.fault_count disk.new) result }
{
    let mut done = 0;
    while done < into.len() {
        let count = disk.read_at(name, at + done as u64, &mut into[done..])?;
        if count == 0 {
            return Ok(done);
        }
        done += count;
    }
    Ok(done)
}
