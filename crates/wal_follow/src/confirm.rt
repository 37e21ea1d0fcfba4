//! Whether the log still has the header of what the follower found.

ghost use Rattle.std.specs.Prelude.{◌≡◌, ◌≤◌, length, take, Some};
ghost use Rattle.live_gate.specs.LiveRecord.{IfTold, GoesOn};
ghost use Rattle.live_gate.specs.LiveCalls.{Keeps};
ghost use Rattle.wal_follow.specs.Following.{Fits};
ghost use Rattle.wal_follow.specs.Calls.{target_of, FollowHasCause, Confirms, IsConfirmAnswer, salts_in, salts_answer};

use crate::answer::Found;
use crate::fault::{Broken, FollowFault};
use crate::follower::Follower;
use crate::reading::fill;
use live_gate::Live;
use ls_base::Place;
use wal_frames::read_wal_header;

impl Follower {
    /// Reads the header of the log again where the found place is in the log. `GateBroken(Salts)` exactly where
    /// no valid header or other salts are there, or `Live`; nothing else.
    pub fn confirm<L: Live>(&self, live: &mut L, found: &Found) -> Result<(), FollowFault>
        requires found { self.now.found ≡ Some (target_of found.now) }
        requires fits { IfTold (L.told live.old) (λ r. Fits self.now r.database) }
        ensures told { GoesOn (L.told live.old) (L.told live.new) (Confirms self.now (target_of found.now) result) }
        ensures answer { IsConfirmAnswer result }
        ensures keeps { Keeps (L.attached live.old) (L.attached live.new) (L.is_there live.old) (L.is_there live.new) }
        ensures cause { FollowHasCause (L.fault_count live.old) (L.fault_count live.new) result }
    {
        match found.place {
            Place::Rest { .. } => Ok(()),
            Place::Wal { salt1, salt2, .. } => {
                live.aim(0)?;
                let mut head = [0; 32];
                let count = fill(live, &mut head)?;
                let now = salts(&head[..count]);
                check_salts((salt1, salt2), now)
            }
        }
    }
}

/// `GateBroken(Salts)` where the salts now aren't those that were.
fn check_salts(was: (u32, u32), now: Option<(u32, u32)>) -> Result<(), FollowFault>
    ensures { result ≡ salts_answer was now }
{
    if now == Some(was) {
        return Ok(());
    }
    Err(FollowFault::GateBroken(Broken::Salts { was, now }))
}

/// The salts of the header with which the bytes of a log begin, if it is accepted.
fn salts(bytes: &[u8]) -> Option<(u32, u32)>
    ensures { result ≡ salts_in bytes.now }
{
    match read_wal_header(bytes) {
        Ok(head) => Some((head.salt1, head.salt2)),
        Err(_) => None,
    }
}
