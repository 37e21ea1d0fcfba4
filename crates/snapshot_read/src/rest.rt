//! The place of a database whose log has no mark.

ghost use Rattle.std.specs.Prelude.{◌≡◌, ◌≤◌, length, IfOk};
ghost use Rattle.ls_base.specs.Fault.{HasCause};
ghost use Rattle.live_gate.specs.LiveRecord.{GoesOn};
ghost use Rattle.live_gate.specs.LiveCalls.{Keeps};
ghost use Rattle.snapshot_read.specs.Resting.{IsRest, AddsPage, ReadsRest};

use live_gate::{Live, LiveFault};
use ls_base::{PageSize, Place};
use ls_sums::page_sum;

/// The bit that is set in the sum of each place.
const TOP_BIT: u64 = 1 << 63;

/// The sum with that of the page added. The lock page isn't read and adds nothing.
pub(crate) fn sum_with<L: Live>(
    live: &mut L,
    size: PageSize,
    number: u32,
    sum: u64,
    buffer: &mut [u8],
) -> Result<u64, LiveFault>
    requires whole { length buffer.old ≡ size }
    requires number { 1 ≤ number }
    ensures told { GoesOn (L.told live.old) (L.told live.new) (AddsPage size number sum result) }
    ensures keeps { Keeps (L.attached live.old) (L.attached live.new) (L.is_there live.old) (L.is_there live.new) }
    ensures cause { HasCause (L.fault_count live.old) (L.fault_count live.new) result }
{
    if number == size.lock_page() {
        return Ok(sum);
    }
    live.read_page(size, number, buffer)?;
    Ok(sum ^ page_sum(number, buffer))
}

/// The place at rest of the first `pages` pages of the database file: the exclusive or of their sums, with
/// the lock page left out and the top bit set. The buffer has the page size. A fault of the live database
/// is the only refusal. Takes no memory.
pub fn rest_place<L: Live>(
    live: &mut L,
    size: PageSize,
    pages: u32,
    buffer: &mut [u8],
) -> Result<Place, LiveFault>
    requires whole { length buffer.old ≡ size }
    ensures told { GoesOn (L.told live.old) (L.told live.new) (ReadsRest size pages result) }
    ensures rest { IfOk result IsRest }
    ensures keeps { Keeps (L.attached live.old) (L.attached live.new) (L.is_there live.old) (L.is_there live.new) }
    ensures cause { HasCause (L.fault_count live.old) (L.fault_count live.new) result }
{
    let mut sum = 0;
    for before in 0..pages {
        sum = sum_with(live, size, before + 1, sum, buffer)?;
    }
    Ok(Place::Rest { sum: sum | TOP_BIT })
}
