//! What is asked of a live database before its log is read.

ghost use Rattle.std.specs.Prelude.{◌≡◌, ◌<◌, ◌≤◌, ◌^◌, ℕ, IfOk, IsOk, IsErrOf, Ok, Err};
ghost use Rattle.live_gate.specs.LiveRecord.{GoesOn};
ghost use Rattle.live_gate.specs.LiveCalls.{Keeps};
ghost use Rattle.wal_follow.specs.Calls.{FollowHasCause};
ghost use Rattle.wal_follow.specs.Asks.{AsksHeader, AsksLength, IsHeaderAnswer, IsLengthAnswer};

use crate::fault::FollowFault;
use db_page::read_db_header;
use live_gate::Live;
use ls_base::{LOG_LIMIT, PageSize};

/// The page size that the header of the database file says. `Header` with its first fault, or `Live`.
pub(crate) fn page_size<L: Live>(live: &mut L) -> Result<PageSize, FollowFault>
    ensures told { GoesOn (L.told live.old) (L.told live.new) (AsksHeader result) }
    ensures answer { IsHeaderAnswer result }
    ensures keeps { Keeps (L.attached live.old) (L.attached live.new) (L.is_there live.old) (L.is_there live.new) }
    ensures cause { FollowHasCause (L.fault_count live.old) (L.fault_count live.new) result }
{
    let mut head = [0; 100];
    let count = live.db_head(&mut head)?;
    match read_db_header(&head[..count]) {
        Ok(size) => Ok(size),
        Err(fault) => Err(FollowFault::Header(fault)),
    }
}

/// The length of the log in bytes. `WalTooLong` with it where it is above 2^32, or `Live`.
pub(crate) fn log_length<L: Live>(live: &mut L) -> Result<u64, FollowFault>
    ensures told { GoesOn (L.told live.old) (L.told live.new) (AsksLength result) }
    ensures answer { IsLengthAnswer result }
    ensures keeps { Keeps (L.attached live.old) (L.attached live.new) (L.is_there live.old) (L.is_there live.new) }
    ensures cause { FollowHasCause (L.fault_count live.old) (L.fault_count live.new) result }
{
    let length = live.wal_size()?;
    if length > LOG_LIMIT {
        return Err(FollowFault::WalTooLong(length));
    }
    Ok(length)
}
