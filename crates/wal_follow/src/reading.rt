//! The bytes of a log, read piece by piece.

ghost use Rattle.std.specs.Prelude.{◌≡◌, ◌<◌, ◌≤◌, ◌+◌, ◌^◌, length, IfOk, Ok};
ghost use Rattle.ls_base.specs.Fault.{HasCause};
ghost use Rattle.live_gate.specs.LiveRecord.{GoesOn};
ghost use Rattle.live_gate.specs.LiveCalls.{Keeps};
ghost use Rattle.wal_follow.specs.Calls.{FollowHasCause};
ghost use Rattle.wal_follow.specs.LogReading.{Fills, ReadsOn, IsReadAnswer};
ghost use Rattle.wal_follow.specs.Gathering.{KeepsBase};

use crate::fault::FollowFault;
use crate::gathering::Gathering;
use live_gate::{Live, LiveFault};

/// Fills a front of the buffer with the bytes behind the aim, as many as come, and answers how many.
pub(crate) fn fill<L: Live>(live: &mut L, into: &mut [u8]) -> Result<usize, LiveFault>
    ensures told { GoesOn (L.told live.old) (L.told live.new) (Fills result into.new) }
    ensures bound { IfOk result (λ n. n ≤ length into.old) }
    ensures length { length into.new ≡ length into.old }
    ensures cause { HasCause (L.fault_count live.old) (L.fault_count live.new) result }
    ensures keeps { Keeps (L.attached live.old) (L.attached live.new) (L.is_there live.old) (L.is_there live.new) }
{
    let mut filled = 0;
    while filled < into.len() {
        let count = live.read(&mut into[filled..])?;
        if count == 0 {
            return Ok(filled);
        }
        filled += count;
    }
    Ok(filled)
}

/// Reads so many bytes behind the aim, or as many as come, and gathers their frames.
pub(crate) fn read_on<L: Live>(
    live: &mut L,
    left: u64,
    buffer: &mut [u8],
    gathering: &mut Gathering,
) -> Result<(), FollowFault>
    requires room { 0 < length buffer.old }
    requires short { 1 ≤ left → gathering.old.scan.taken + left < 2 ^ 63 }
    ensures told { GoesOn (L.told live.old) (L.told live.new) (ReadsOn left gathering.old gathering.new result) }
    ensures answer { IsReadAnswer result }
    ensures base { KeepsBase gathering.old gathering.new }
    ensures keeps { Keeps (L.attached live.old) (L.attached live.new) (L.is_there live.old) (L.is_there live.new) }
    ensures cause { FollowHasCause (L.fault_count live.old) (L.fault_count live.new) result }
{
    let mut left = left;
    while left > 0 {
        let room = buffer.len().min(left as usize);
        let count = live.read(&mut buffer[..room])?;
        if count == 0 {
            return Ok(());
        }
        gathering.take(&buffer[..count])?;
        left -= count as u64;
    }
    Ok(())
}
