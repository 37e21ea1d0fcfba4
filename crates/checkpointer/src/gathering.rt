//! Where the pages of a log's frames stand.

ghost use Rattle.std.specs.Prelude.{◌≡◌, ℕ, ◌+◌, ◌<◌, ◌≤◌, ◌^◌, ◌++◌, List, length, OnOk, IsErrOf};
ghost use Rattle.crash_disk.specs.Told.{IfTold};
ghost use Rattle.checkpointer.specs.declared.fault.BackfillFault.TheVariants.{NotMark};
ghost use Rattle.checkpointer.specs.Fault.{BackfillHasCause};
ghost use Rattle.checkpointer.specs.PairState.{bytes_at};
ghost use Rattle.checkpointer.specs.Gathering.{HasGathered, GathersOn};

use crate::fault::BackfillFault;
use crate::reading::next_piece;
use crash_disk::Disk;
use ls_base::Memory;
use std::collections::BTreeMap;
use wal_frames::{Fed, Scan};

/// The length of a log's header in bytes.
pub(crate) const HEADER_BYTES: u64 = 32;

/// Feeds the bytes to the scan, and notes by its number where the page of each frame stands that ends in them.
pub(crate) fn gather(
    scan: &mut Scan,
    pages: &mut BTreeMap<u32, u64>,
    size: u32,
    bytes: &[u8],
) -> Result<(), Memory>
    requires size { size ≡ scan.old.head.size }
    requires bound { scan.old.taken + length bytes.now < 2 ^ 63 }
    ensures value { OnOk result
        ((log : List ℕ) → HasGathered log scan.old pages.old
        → HasGathered (log ++ bytes.now) scan.new pages.new) }
    ensures taken { OnOk result (scan.new.taken ≡ scan.old.taken + length bytes.now) }
    ensures head { OnOk result (scan.new.head ≡ scan.old.head) }
{
    let mut rest = bytes;
    while let Fed::Frame {
        taken,
        number,
        end,
        ..
    } = scan.feed(rest)
    {
        pages.insert(number, end.saturating_sub(u64::from(size)))?;
        rest = &rest[taken..];
    }
    Ok(())
}

/// Gathers the bytes of the log from where its header ends, up to `end`. `NotMark` where the log ended before.
pub(crate) fn gather_on<D: Disk>(
    disk: &mut D,
    wal: &str,
    scan: &mut Scan,
    pages: &mut BTreeMap<u32, u64>,
    size: u32,
    end: u64,
    buffer: &mut [u8],
) -> Result<(), BackfillFault>
    requires size { size ≡ scan.old.head.size }
    requires begun { scan.old.taken ≡ 0 }
    requires bound { (32 ≤ end) × (end < 2 ^ 63) }
    requires room { 0 < length buffer.old }
    ensures value { OnOk result (IfTold (D.told disk.old) (λ events.
        GathersOn (bytes_at events wal.now) end scan.old pages.old scan.new pages.new)) }
    ensures whole { IfTold (D.told disk.old) (λ events.
        end ≤ length (bytes_at events wal.now) → IsErrOf result NotMark → ⊥) }
    ensures taken { OnOk result (scan.new.taken + 32 ≡ end) }
    ensures head { OnOk result (scan.new.head ≡ scan.old.head) }
    ensures unchanged { D.told disk.new ≡ D.told disk.old }
    ensures same_folder { D.folder disk.new ≡ D.folder disk.old }
    ensures cause { BackfillHasCause (D.fault_count disk.old) (D.fault_count disk.new) result }
{
    let mut at = HEADER_BYTES;
    while at < end {
        let count = match next_piece(disk, wal, at, end, buffer) {
            Err(fault) => return Err(BackfillFault::Disk(fault)),
            Ok(count) => count,
        };
        if count == 0 {
            return Err(BackfillFault::NotMark);
        }
        match gather(scan, pages, size, &buffer[..count]) {
            Err(Memory) => return Err(BackfillFault::Memory),
            Ok(()) => {}
        }
        at += count as u64;
    }
    Ok(())
}
