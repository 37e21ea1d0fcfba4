//! The frames of a log, from a recorded place on or from the log's start.

ghost use Rattle.std.specs.Prelude.{◌≡◌, ◌≤◌, ◌^◌, Option, Some, None, length, IfOk, if◌then◌else◌};
ghost use Rattle.ls_base.specs.Limits.{log_limit};
ghost use Rattle.wal_frames.specs.WalFormat.{read_header};
ghost use Rattle.wal_frames.specs.ValidPrefix.{if_accepted};
ghost use Rattle.snapshot_read.specs.Offsets.{AreWithinLimit};
ghost use Rattle.live_gate.specs.LiveRecord.{GoesOn};
ghost use Rattle.live_gate.specs.LiveCalls.{Keeps};
ghost use Rattle.wal_follow.specs.Calls.{FollowHasCause};
ghost use Rattle.wal_follow.specs.Steps as steps;
ghost use Rattle.wal_follow.specs.Gathers.{KeepsPlaces, IsGatherAnswer, IsHeadAnswer, IsGathered};
ghost use Rattle.wal_follow.specs.LogGathering.{AsksHead, GathersLog, GathersFrom, Gathers};

use crate::fault::FollowFault;
use crate::following::Following;
use crate::gathering::Gathering;
use crate::log_scan::LogScan;
use crate::reading::{fill, read_on};
use live_gate::Live;
use ls_base::{Mark, PageSize, Place};
use snapshot_read::PageMap;
use std::alloc::Global;
use wal_frames::{WalHeader, read_wal_header};

/// The length of a log's header in bytes.
const LOG_HEADER_BYTES: usize = 32;
/// How many bytes of the log are read at once.
const BUFFER_BYTES: usize = 65536;

/// What was gathered of a log that has a commit.
#[derive(Clone, Copy, Debug)]
pub(crate) struct Gathered {
    /// Its last mark.
    pub(crate) mark: Mark,
    /// Its page size.
    pub(crate) size: PageSize,
    /// The least number of pages since the place, where that is in the log or a pass emptied the log there.
    pub(crate) least: Option<u32>,
}

impl Following {
    /// Gathers the frames of the log: those behind the recorded place, where the log still has the header and
    /// the length for it, else all of them. `None` where the log has no commit.
    pub(crate) fn gather<L: Live>(
        &mut self,
        alloc: Global,
        live: &mut L,
        bytes: u64,
    ) -> Result<Option<Gathered>, FollowFault>
        requires short { bytes ≤ log_limit }
        ensures told { GoesOn (L.told live.old) (L.told live.new) (Gathers bytes self.old self.new result) }
        ensures keeps_places { KeepsPlaces self.old self.new }
        ensures answer { IsGatherAnswer self.new result }
        ensures keeps { Keeps (L.attached live.old) (L.attached live.new) (L.is_there live.old) (L.is_there live.new) }
        ensures cause { FollowHasCause (L.fault_count live.old) (L.fault_count live.new) result }
    {
        let mut buffer = vec![in alloc; 0u8; BUFFER_BYTES]?;
        let Some(head) = log_header(live, bytes, &mut buffer)? else {
            self.newer = PageMap::new(alloc);
            self.fresh = true;
            return Ok(None);
        };
        match kept_mark(self.recorded_mark(), &head, bytes) {
            Some(mark) => self.gather_behind(alloc, live, bytes, &mut buffer, &mark),
            None => self.gather_all(alloc, live, bytes, &mut buffer, head),
        }
    }

    /// The mark of a place in the log that `stored` recorded and where no pass emptied the log since.
    fn recorded_mark(&self) -> Option<Mark>
        ensures { result ≡ steps.recorded_mark self.now.recorded self.now.passed self.now.place self.now.pages }
    {
        if !self.recorded || self.passed {
            return None;
        }
        match (self.place, self.pages) {
            (
                Some(
                    Place::Wal {
                        salt1,
                        salt2,
                        end,
                        s0,
                        s1,
                    },
                ),
                Some(commit),
            ) => Some(Mark {
                salt1,
                salt2,
                end,
                s0,
                s1,
                commit,
            }),
            _ => None,
        }
    }

    /// Gathers the frames behind the mark of the recorded place.
    fn gather_behind<L: Live>(
        &mut self,
        alloc: Global,
        live: &mut L,
        bytes: u64,
        buffer: &mut [u8],
        mark: &Mark,
    ) -> Result<Option<Gathered>, FollowFault>
        requires short { bytes ≤ log_limit }
        requires room { 1 ≤ length buffer.old }
        ensures told { GoesOn (L.told live.old) (L.told live.new)
            (GathersFrom bytes mark.now self.old self.new result) }
        ensures keeps_places { KeepsPlaces self.old self.new }
        ensures answer { IsGatherAnswer self.new result }
        ensures keeps { Keeps (L.attached live.old) (L.attached live.new) (L.is_there live.old) (L.is_there live.new) }
        ensures cause { FollowHasCause (L.fault_count live.old) (L.fault_count live.new) result }
    {
        live.aim(mark.end)?;
        let Some(mut scan) = self.scan.take() else {
            return Ok(None);
        };
        scan.back(mark);
        let mut gathering = Gathering::new(alloc, scan, None, Some(mark.commit));
        let left = bytes.saturating_sub(mark.end);
        let read = read_on(live, left, buffer, &mut gathering);
        let gathered = self.take_over(gathering, false);
        read?;
        Ok(gathered)
    }

    /// Gathers the frames of the whole log behind its header, which was read.
    fn gather_all<L: Live>(
        &mut self,
        alloc: Global,
        live: &mut L,
        bytes: u64,
        buffer: &mut [u8],
        head: WalHeader,
    ) -> Result<Option<Gathered>, FollowFault>
        requires short { bytes ≤ log_limit }
        requires room { 1 ≤ length buffer.old }
        ensures told { GoesOn (L.told live.old) (L.told live.new)
            (GathersLog bytes head self.old self.new result) }
        ensures keeps_places { KeepsPlaces self.old self.new }
        ensures answer { IsGatherAnswer self.new result }
        ensures keeps { Keeps (L.attached live.old) (L.attached live.new) (L.is_there live.old) (L.is_there live.new) }
        ensures cause { FollowHasCause (L.fault_count live.old) (L.fault_count live.new) result }
    {
        let scan = LogScan::begin(alloc, head)?;
        let mut gathering = Gathering::new(alloc, scan, self.sought(), self.least_at_pass());
        let left = bytes.saturating_sub(LOG_HEADER_BYTES as u64);
        read_on(live, left, buffer, &mut gathering)?;
        Ok(self.take_over(gathering, true))
    }

    /// Keeps what was gathered, and answers what it is.
    fn take_over(&mut self, gathering: Gathering, fresh: bool) -> Option<Gathered>
        ensures keeps { self.new ≡ record self.old {
          scan = Some gathering.scan;
          newer = gathering.newer;
          fresh = fresh;
        } }
        ensures value { IsGathered gathering result }
    {
        let Gathering {
            scan,
            newer,
            least,
            ..
        } = gathering;
        let size = scan.size();
        let last = scan.last();
        self.scan = Some(scan);
        self.newer = newer;
        self.fresh = fresh;
        match last {
            Some(mark) => Some(Gathered { mark, size, least }),
            None => None,
        }
    }

    /// The place that is looked for in a log from its start: none where a pass emptied the log there.
    fn sought(&self) -> Option<Place>
        ensures { result ≡ (if self.now.passed then None else self.now.place) }
    {
        if self.passed {
            return None;
        }
        self.place
    }

    /// The number of pages at the place where a pass emptied the log there.
    fn least_at_pass(&self) -> Option<u32>
        ensures { result ≡ (if self.now.passed then self.now.pages else None) }
    {
        if self.passed {
            return self.pages;
        }
        None
    }
}

/// The header of the log, if it has one that is accepted.
fn log_header<L: Live>(
    live: &mut L,
    bytes: u64,
    buffer: &mut [u8],
) -> Result<Option<WalHeader>, FollowFault>
    requires room { 32 ≤ length buffer.old }
    ensures told { GoesOn (L.told live.old) (L.told live.new) (AsksHead bytes result) }
    ensures length { length buffer.new ≡ length buffer.old }
    ensures keeps { Keeps (L.attached live.old) (L.attached live.new) (L.is_there live.old) (L.is_there live.new) }
    ensures answer { IsHeadAnswer result }
    ensures cause { FollowHasCause (L.fault_count live.old) (L.fault_count live.new) result }
{
    live.aim(0)?;
    if bytes < LOG_HEADER_BYTES as u64 {
        return Ok(None);
    }
    let count = fill(live, &mut buffer[..LOG_HEADER_BYTES])?;
    match read_wal_header(&buffer[..count]) {
        Ok(head) => Ok(Some(head)),
        Err(_) => Ok(None),
    }
}

/// A mark at which the log can be read on: it has the header of the mark's salts, and the length.
fn kept_mark(mark: Option<Mark>, head: &WalHeader, bytes: u64) -> Option<Mark>
    ensures { result ≡ steps.kept_mark mark head.now bytes }
{
    match mark {
        Some(mark) if mark.salt1 == head.salt1 && mark.salt2 == head.salt2 && mark.end <= bytes =>
            Some(mark),
        _ => None,
    }
}
