//! Bytes of a log that is read while its writer moves.

ghost use Rattle.std.specs.Prelude.{◌≡◌, ℕ, ◌+◌, ◌^◌, ◌<◌, ◌≤◌, length, IsErrOf};
ghost use Rattle.live_gate.specs.LiveRecord.{GoesOn};
ghost use Rattle.live_gate.specs.LiveCalls.{Keeps};
ghost use Rattle.snapshot_read.specs.Cause.{PageHasCause};
ghost use Rattle.snapshot_read.specs.Reading.{ReadsLog};
ghost use Rattle.snapshot_read.specs.declared.fault.PageFault.TheVariants.{Short};

use crate::fault::PageFault;
use live_gate::Live;

/// Fills the buffer with the bytes of the log from an offset on.
pub(crate) fn read_log<L: Live>(live: &mut L, at: u64, into: &mut [u8]) -> Result<(), PageFault>
    requires { at + length into.old < 2 ^ 64 }
    ensures told { GoesOn (L.told live.old) (L.told live.new) (ReadsLog at result into.new) }
    ensures short { (missing : ℕ) → IsErrOf result (Short missing)
        → (at ≤ missing) × (missing < at + length into.old) }
    ensures keeps { Keeps (L.attached live.old) (L.attached live.new) (L.is_there live.old) (L.is_there live.new) }
    ensures cause { PageHasCause (L.fault_count live.old) (L.fault_count live.new) result }
{
    live.aim(at)?;
    let mut filled = 0;
    while filled < into.len() {
        let count = live.read(&mut into[filled..])?;
        if count == 0 {
            return Err(PageFault::Short {
                at: at + filled as u64,
            });
        }
        filled += count;
    }
    Ok(())
}
