//! What became of a live database since the follower's place.

ghost use Rattle.std.specs.Prelude.{◌≡◌, ◌≤◌, ◌<◌, ◌*◌, ◌^◌, ℕ, List, Option, Some, None, length, OnOk, IfOk, IfErr};
ghost use Rattle.std.specs.Prelude.{if◌then◌else◌};
ghost use Rattle.ls_base.specs.Limits.{database_limit, log_limit};
ghost use Rattle.wal_follow.specs.Steps as steps;
ghost use Rattle.wal_follow.specs.declared.fault.FollowFault.TheVariants.{TooLarge};
ghost use Rattle.live_gate.specs.LiveRecord.{IfTold, GoesOn};
ghost use Rattle.live_gate.specs.LiveCalls.{Keeps};
ghost use Rattle.wal_follow.specs.Following.{Fits};
ghost use Rattle.wal_follow.specs.Calls.{Follows, Learns, FollowHasCause, NeverBroken};
ghost use Rattle.wal_follow.specs.AtRest.{pages_in, AnswersAtRest};
ghost use Rattle.wal_follow.specs.Kept.{IsReady};
ghost use Rattle.wal_follow.specs.AtMark.{IsAsked, FollowsMark};
ghost use Rattle.wal_follow.specs.Gathering.{is_place};
ghost use Rattle.wal_follow.specs.Steps.{IsMarkAnswer, IsRestAnswer, IsCountAnswer};

use crate::answer::{Found, Next, Wanted};
use crate::database::{log_length, page_size};
use crate::fault::FollowFault;
use crate::follower::Follower;
use crate::following::{Following, Target};
use crate::gather::Gathered;
use crate::gathering::place_of;
use crate::wanted::wanted_pages;
use live_gate::Live;
use ls_base::{DATABASE_LIMIT, Memory, PageSize, Place};
use snapshot_read::rest_place;
use std::alloc::Global;

impl Follower {
    /// What became of the database since the place, which stays the recorded one. The refusals come in this
    /// order: `Header`; `WalTooLong`; `SizesDiffer` where the log has a commit and another page size;
    /// `TooLarge`. `Live` and `Memory` may come at any moment, and `GateBroken` never. A log whose header isn't
    /// valid has no commit.
    pub fn next<L: Live>(&mut self, live: &mut L) -> Result<Next, FollowFault>
        requires fits { IfTold (L.told live.old) (λ r. Fits self.old r.database) }
        ensures told { GoesOn (L.told live.old) (L.told live.new) (Follows self.old self.new result) }
        ensures learns { Learns result self.old self.new }
        ensures never { NeverBroken result }
        ensures keeps { Keeps (L.attached live.old) (L.attached live.new) (L.is_there live.old) (L.is_there live.new) }
        ensures cause { FollowHasCause (L.fault_count live.old) (L.fault_count live.new) result }
    {
        self.following.forget();
        let size = page_size(live)?;
        let length = log_length(live)?;
        match self.following.gather(self.alloc, live, length)? {
            Some(at) => self.following.at_mark(self.alloc, size, &at),
            None => self.following.at_rest(self.alloc, live, size),
        }
    }
}

impl Following {
    /// Nothing is found.
    fn forget(&mut self)
        ensures { self.new ≡ record self.old { found = None } }
    {
        self.found = None;
    }

    /// The answer where the log has a commit.
    fn at_mark(&mut self, alloc: Global, size: PageSize, at: &Gathered) -> Result<Next, FollowFault>
        requires scan { self.old.scan ≡ None → ⊥ }
        requires none { self.old.found ≡ None }
        requires ready { IsReady self.old }
        ensures ready { IsReady self.new }
        ensures learns { Learns result self.old self.new }
        ensures answer { IsMarkAnswer size result }
        ensures told { FollowsMark self.old self.new at.now result }
    {
        if at.size != size {
            return Err(FollowFault::SizesDiffer {
                db: size.get(),
                wal: at.size.get(),
            });
        }
        check_bytes(at.mark.commit as u64 * size.get() as u64)?;
        let place = place_of(&at.mark);
        if self.is_at(place) {
            self.learn(size, at.mark.commit);
            return Ok(Next::Same);
        }
        self.kept.reserve(self.newer.len())?;
        let wanted = self.wanted(alloc, size, at)?;
        Ok(self.answer(size, place, at.mark.commit, wanted))
    }

    /// Whether this is the follower's place.
    fn is_at(&self, place: Place) -> bool
        ensures { result ≡ is_place self.now.place place }
    {
        self.place == Some(place)
    }

    /// Learns the page size, and how many pages the state at the place has, where no pass emptied the log there.
    fn learn(&mut self, size: PageSize, commit: u32)
        ensures { self.new ≡ record self.old {
          size = Some size;
          pages = if self.old.passed then self.old.pages else Some commit;
        } }
    {
        if !self.passed {
            self.pages = Some(commit);
        }
        self.size = Some(size);
    }

    /// Which pages are to be stored: those of the piece, or all where the log doesn't lead on from the place.
    fn wanted(&self, alloc: Global, size: PageSize, at: &Gathered) -> Result<Wanted, Memory>
        ensures { IfOk result (IsAsked self.now at.now size) }
    {
        let Some(least) = at.least else {
            return Ok(Wanted::All);
        };
        let Some(behind) = self.behind() else {
            return Ok(Wanted::All);
        };
        let list = wanted_pages(alloc, &self.newer, behind, size, least, at.mark.commit)?;
        Ok(Wanted::Listed(list))
    }

    /// The offset behind which the frames of a piece stand: the end of the place in the log, or 0 where a pass
    /// emptied the log there.
    fn behind(&self) -> Option<u64>
        ensures { result ≡ steps.behind self.now.passed self.now.place }
    {
        match self.place {
            Some(Place::Wal { end, .. }) => Some(if self.passed { 0 } else { end }),
            _ => None,
        }
    }

    /// The answer where the log has no commit.
    fn at_rest<L: Live>(
        &mut self,
        alloc: Global,
        live: &mut L,
        size: PageSize,
    ) -> Result<Next, FollowFault>
        requires none { self.old.found ≡ None }
        requires ready { IsReady self.old }
        ensures ready { IsReady self.new }
        ensures told { GoesOn (L.told live.old) (L.told live.new) (AnswersAtRest size self.old self.new result) }
        ensures learns { Learns result self.old self.new }
        ensures answer { IsRestAnswer result }
        ensures keeps { Keeps (L.attached live.old) (L.attached live.new) (L.is_there live.old) (L.is_there live.new) }
        ensures cause { FollowHasCause (L.fault_count live.old) (L.fault_count live.new) result }
    {
        let bytes = live.db_size()?;
        let pages = page_count(bytes, size)?;
        let mut page = vec![in alloc; 0u8; size.get() as usize]?;
        let place = rest_place(live, size, pages, &mut page)?;
        if self.is_same_rest(place) {
            self.size = Some(size);
            return Ok(Next::Same);
        }
        self.kept.reserve(self.newer.len())?;
        Ok(self.answer(size, place, pages, Wanted::All))
    }

    /// Whether a database file at this place is as it was at the follower's.
    fn is_same_rest(&self, rest: Place) -> bool
        ensures { result ≡ steps.is_same_rest self.now.passed self.now.place rest }
    {
        match self.place {
            None => false,
            Some(Place::Rest { .. }) => self.place == Some(rest),
            Some(Place::Wal { .. }) => self.passed,
        }
    }

    /// Keeps what was found, and answers it.
    fn answer(&mut self, size: PageSize, place: Place, commit: u32, wanted: Wanted) -> Next
        ensures value { result ≡ steps.next_of size place commit wanted }
        ensures keeps { self.new ≡ record self.old {
          size = Some size;
          found = Some (record { size = size; place = place; commit = commit });
        } }
    {
        self.size = Some(size);
        self.found = Some(Target {
            size,
            place,
            commit,
        });
        match wanted {
            Wanted::Listed(numbers) => Next::Piece(Found {
                size,
                place,
                commit,
                wanted: Wanted::Listed(numbers),
            }),
            Wanted::All => Next::Lost(Found {
                size,
                place,
                commit,
                wanted: Wanted::All,
            }),
        }
    }
}

/// `TooLarge` with the number of bytes where a database of so many is too large.
fn check_bytes(bytes: u64) -> Result<(), FollowFault>
    ensures ok { OnOk result (bytes ≤ database_limit) }
    ensures large { IfErr result (λ fault. (fault ≡ TooLarge bytes) × (database_limit < bytes)) }
{
    if bytes > DATABASE_LIMIT {
        return Err(FollowFault::TooLarge(bytes));
    }
    Ok(())
}

/// How many pages of this size so many bytes are, rounded up, and at least 1. `TooLarge` with the bytes of the
/// pages where a database of so many is too large.
fn page_count(bytes: u64, size: PageSize) -> Result<u32, FollowFault>
    requires short { bytes < 2 ^ 63 }
    ensures value { IfOk result (λ pages. (pages ≡ pages_in size bytes) × (pages * size ≤ database_limit)) }
    ensures large { IfErr result (λ fault. (fault ≡ TooLarge (pages_in size bytes * size))
        × (database_limit < pages_in size bytes * size)) }
    ensures answer { IsCountAnswer result }
{
    let pages = bytes.div_ceil(size.get() as u64).max(1);
    check_bytes(pages.saturating_mul(size.get() as u64))?;
    Ok(pages as u32)
}
