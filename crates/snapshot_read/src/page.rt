//! One page of a database as of a mark of its log.

ghost use Rattle.std.specs.Prelude.{◌≡◌, ℕ, ◌≤◌, length, replicate, IsOk, IsErrOf};
ghost use Rattle.ls_base.specs.PageSize.{lock_page};
ghost use Rattle.live_gate.specs.LiveRecord.{GoesOn};
ghost use Rattle.live_gate.specs.LiveCalls.{Keeps};
ghost use Rattle.snapshot_read.specs.Cause.{PageHasCause, IsByteOfPage};
ghost use Rattle.snapshot_read.specs.Offsets.{AreWithinLimit};
ghost use Rattle.snapshot_read.specs.Reading.{ReadsPage};
ghost use Rattle.snapshot_read.specs.declared.fault.PageFault.TheVariants.{Short};

use crate::fault::PageFault;
use crate::log_page::read_log;
use crate::page_map::PageMap;
use live_gate::Live;
use ls_base::PageSize;

/// Fills `into`, which has the page size, with the page of this number, from 1: zeros at the lock page, else
/// the log's bytes at the number's offset where the map has one, else the database file's page. `Live` for
/// a fault of the live database; `Short` where a read of the log gave no byte before the page was whole,
/// which under the gate doesn't come for a page in the committed part. Takes no memory.
pub fn page_at<L: Live>(
    live: &mut L,
    map: &PageMap,
    size: PageSize,
    number: u32,
    into: &mut [u8],
) -> Result<(), PageFault>
    requires whole { length into.old ≡ size }
    requires number { 1 ≤ number }
    requires offsets { AreWithinLimit size map.now.offsets }
    ensures told { GoesOn (L.told live.old) (L.told live.new)
        (ReadsPage map.now.offsets size number result into.new) }
    ensures locked { number ≡ lock_page size → IsOk result × (into.new ≡ replicate size 0) }
    ensures short { (missing : ℕ) → IsErrOf result (Short missing)
        → IsByteOfPage size map.now.offsets number missing }
    ensures keeps { Keeps (L.attached live.old) (L.attached live.new) (L.is_there live.old) (L.is_there live.new) }
    ensures cause { PageHasCause (L.fault_count live.old) (L.fault_count live.new) result }
{
    if number == size.lock_page() {
        into.fill(0);
        return Ok(());
    }
    match map.get(number) {
        Some(at) => read_log(live, at, into),
        None => {
            live.read_page(size, number, into)?;
            Ok(())
        }
    }
}
