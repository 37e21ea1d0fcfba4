//! The follower of a log.

ghost use Rattle.std.specs.Prelude.{◌≡◌, ◌≤◌, ℕ, Bool, true, false, List, Option, Some, None, option_copied};
ghost use Rattle.std.specs.Prelude.{option_map, if◌then◌else◌};
ghost use Rattle.std.specs.FinMap as map;
ghost use Rattle.live_gate.specs.LiveRecord.{Database};
ghost use Rattle.live_gate.specs.Legal.{IsLegal};
ghost use Rattle.snapshot_read.specs.Reading.{IsUnderGate};
ghost use Rattle.wal_follow.specs.Following.{Fits, is_in_log};
ghost use Rattle.wal_follow.specs.Calls as calls;
ghost use Rattle.wal_follow.specs.Calls.{target_of, frames_of, IsBehindHeader, KnowsNothing};
ghost use Rattle.wal_follow.specs.LogEnd as log_end;
ghost use Rattle.wal_follow.specs.LogEnd.{log_end_of};

use crate::answer::Found;
use crate::following::{Following, Target};
use ls_base::{Line, PageSize, Place};
use snapshot_read::PageMap;
use std::alloc::Global;
use std::marker::Model;

/// The length of a log's header, and that of a frame's, in bytes.
const LOG_HEADER_BYTES: u64 = 32;

const FRAME_HEADER_BYTES: u64 = 24;

/// Follows the log of a live database from one recorded state to the next. All calls on the live database
/// are made under the gate.
#[derive(Debug, Drop)]
pub struct Follower {
    pub(crate) alloc: Global,
    pub(crate) following: Following,
}

impl Model for Follower {
    ghost use Rattle.wal_follow.specs.declared.following.Following.{Following};
    ghost use Rattle.wal_follow.specs.contracts.following.Following as kept;
    ghost use Rattle.wal_follow.specs.Kept.{IsReady};

    ghost Value = { Following };

    ghost coded = { kept.the_row.coded };

    ghost view = { λ f. f.following };

    ghost invariant = { λ f. IsReady f.following };
}

impl Follower {
    /// A follower from the newest line on, `None` where the replica has no file or its newest transaction
    /// isn't retained. It fits a live database under any hold. Takes no memory.
    pub fn start(alloc: Global, newest: Option<Line>) -> Follower
        requires behind { IsBehindHeader (option_map (λ line. line.place) newest) }
        ensures place { result.place ≡ option_map (λ line. line.place) newest }
        ensures nothing { KnowsNothing result }
        ensures fits { (d : Database) → IsUnderGate d → Fits result d }
    {
        let place = match newest {
            Some(line) => Some(line.place),
            None => None,
        };
        Follower {
            alloc,
            following: Following {
                place,
                recorded: false,
                passed: false,
                pages: None,
                size: None,
                scan: None,
                kept: PageMap::new(alloc),
                newer: PageMap::new(alloc),
                fresh: true,
                found: None,
            },
        }
    }

    /// The recorded place. `None` exactly where `start` was given none and `stored` wasn't called since.
    pub fn place(&self) -> Option<&Place>
        ensures { option_copied result ≡ self.now.place }
    {
        self.following.place.as_ref()
    }

    /// How many frames of the log stand up to the place, by the page size that the last `next` that answered
    /// Ok found. 0 before that, for a place at rest, and for one at which a pass emptied the log.
    pub fn frames(&self) -> u64
        ensures { result ≡ frames_of self.now self.now.passed }
    {
        if self.following.passed {
            return 0;
        }
        frames_at(self.following.place, self.following.size)
    }

    /// Where the place ends in the log, in bytes from the log's start: the gate is to be held there. `None` for a
    /// place at rest, for one at which a pass emptied the log, and where there is no place.
    pub fn log_end(&self) -> Option<u64>
        ensures { result ≡ log_end_of self.now self.now.passed }
    {
        if self.following.passed {
            return None;
        }
        log_end_at(self.following.place)
    }

    /// Makes the found place the recorded one. It is what the last `next` found.
    pub fn stored(&mut self, found: &Found)
        requires found { self.old.found ≡ Some (target_of found.now) }
        ensures place { self.new.place ≡ Some found.now.place }
        ensures recorded { (self.new.recorded ≡ true) × (self.new.passed ≡ false) }
        ensures pages { self.new.pages ≡ Some found.now.commit }
        ensures size { self.new.size ≡ self.old.size }
        ensures none { self.new.found ≡ None }
        ensures fits { (d : Database) → IsLegal d → Fits self.old d → Fits self.new d }
    {
        clear_if(&mut self.following.kept, self.following.fresh);
        self.following.kept.take_in(&mut self.following.newer);
        self.following.place = Some(found.place);
        self.following.recorded = true;
        self.following.passed = false;
        self.following.pages = Some(found.commit);
        self.following.found = None;
    }

    /// Notes that a pass emptied the log at the place. The place is one in the log that `stored` recorded, or
    /// at which the last `next` that answered Ok was `Same`, so that the follower has learned its size.
    pub fn passed(&mut self)
        requires log { is_in_log self.old.place ≡ true }
        requires learned { (pages : ℕ) × (self.old.pages ≡ Some pages) }
        ensures { self.new ≡ record self.old { passed = true; found = None } }
    {
        self.following.passed = true;
        self.following.found = None;
    }
}

/// Takes all offsets out, where they are of an older log.
fn clear_if(offsets: &mut PageMap, older: bool)
    ensures offsets { offsets.new.offsets ≡ (if older then map.empty else offsets.old.offsets) }
    ensures spare { offsets.old.spare ≤ offsets.new.spare }
{
    if older {
        offsets.clear();
    }
}

/// Where a place in the log ends.
fn log_end_at(place: Option<Place>) -> Option<u64>
    ensures { result ≡ log_end.log_end_at place }
{
    match place {
        Some(Place::Wal { end, .. }) => Some(end),
        _ => None,
    }
}

/// How many frames end at or before a place in the log.
fn frames_at(place: Option<Place>, size: Option<PageSize>) -> u64
    ensures { result ≡ calls.frames_at place size }
{
    match (place, size) {
        (Some(Place::Wal { end, .. }), Some(size)) => {
            end.saturating_sub(LOG_HEADER_BYTES) / (FRAME_HEADER_BYTES + size.get() as u64)
        }
        _ => 0,
    }
}
