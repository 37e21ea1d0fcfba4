//! The frames of a log, gathered from one offset on.

ghost use Rattle.std.specs.Prelude.{◌≡◌, ◌<◌, ◌≤◌, ◌+◌, ◌++◌, ◌^◌, [], List, ℕ, Option, Some, None, length, take, IfOk};
ghost use Rattle.std.specs.Prelude.{OnOk};
ghost use Rattle.wal_follow.specs.Gathering as spec;
ghost use Rattle.wal_follow.specs.Gathering.{HasGathered, Begins, KeepsBase, AddsFrame, Commits, is_place, least_with};
ghost use Rattle.wal_frames.specs.Marks.{place_of as place_at, last_mark_of};
ghost use Rattle.wal_frames.specs.Scanned.{HasTaken};
ghost use Rattle.ls_base.specs.declared.mark.Mark.{Mark as MarkValue};
ghost use Rattle.snapshot_read.specs.Offsets.{AreWithinLimit};

use crate::log_scan::LogScan;
use crate::offset::Offset;
use ls_base::{Mark, Memory, Place};
use snapshot_read::PageMap;
use std::alloc::Global;
use wal_frames::Fed;

/// Where the page of a frame stands.
#[derive(Clone, Copy, Debug)]
pub(crate) struct PageOffset {
    pub(crate) number: u32,
    pub(crate) at: Offset,
}

/// What was gathered from the frames of a log.
#[derive(Debug, Drop)]
pub(crate) struct Gathering {
    /// The scan that has taken them.
    pub(crate) scan: LogScan,
    /// The place that is looked for among their marks.
    pub(crate) place: Option<Place>,
    /// The least number of pages since that place, once its mark was met.
    pub(crate) least: Option<u32>,
    /// Where the pages of the frames up to the last mark stand.
    pub(crate) newer: PageMap,
    /// Where those of the frames behind it stand.
    pub(crate) pending: Vec<PageOffset>,
}

impl Gathering {
    /// Nothing gathered yet. Takes no memory.
    pub(crate) fn new(
        alloc: Global,
        scan: LogScan,
        place: Option<Place>,
        least: Option<u32>,
    ) -> Gathering
        ensures { Begins result scan place least }
    {
        Gathering {
            scan,
            place,
            least,
            newer: PageMap::new(alloc),
            pending: Vec::new(alloc),
        }
    }

    /// Takes the next bytes of the log. `Memory` for want of it.
    pub(crate) fn take(&mut self, piece: &[u8]) -> Result<(), Memory>
        requires short { self.old.scan.taken + length piece.now < 2 ^ 63 }
        ensures gathers { OnOk result ((base : ℕ) (initial : Option ℕ) (log : List ℕ)
            → HasGathered base initial self.old log → HasGathered base initial self.new (log ++ piece.now)) }
        ensures taken { OnOk result (self.new.scan.taken ≡ self.old.scan.taken + length piece.now) }
        ensures keeps { KeepsBase self.old self.new }
    {
        let mut done = 0;
        while done < piece.len() {
            done += self.take_frame(&piece[done..])?;
        }
        Ok(())
    }

    /// Takes a piece up to the first end of a frame in it, and answers how many bytes that were.
    fn take_frame(&mut self, piece: &[u8]) -> Result<usize, Memory>
        requires some { 0 < length piece.now }
        requires short { self.old.scan.taken + length piece.now < 2 ^ 63 }
        ensures gathers { IfOk result (λ n. (base : ℕ) (initial : Option ℕ) (log : List ℕ)
            → HasGathered base initial self.old log → HasGathered base initial self.new (log ++ take n piece.now)) }
        ensures taken { IfOk result (λ n. (0 < n) × (n ≤ length piece.now)
            × (self.new.scan.taken ≡ self.old.scan.taken + n)) }
        ensures keeps { KeepsBase self.old self.new }
    {
        match self.scan.feed(piece) {
            Fed::All => Ok(piece.len()),
            Fed::Frame {
                taken,
                number,
                commit,
                end,
            } => {
                self.add(number, commit, end)?;
                Ok(taken)
            }
        }
    }

    /// Adds a frame that the scan has just taken.
    fn add(&mut self, number: u32, commit: u32, end: u64) -> Result<(), Memory>
        ensures scan { self.new.scan ≡ self.old.scan }
        ensures adds { OnOk result (AddsFrame number commit end self.old self.new) }
        ensures place { self.new.place ≡ self.old.place }
        ensures within { AreWithinLimit 65536 self.old.newer.offsets → AreWithinLimit 65536 self.new.newer.offsets }
    {
        let size = self.scan.size().get() as u64;
        self.pending.push(PageOffset {
            number,
            at: Offset::of_page(end, size),
        })?;
        if commit == 0 {
            return Ok(());
        }
        self.commit()?;
        self.least = self.least_after(commit);
        Ok(())
    }

    /// The pages behind the last mark are pages up to it.
    fn commit(&mut self) -> Result<(), Memory>
        ensures scan { self.new.scan ≡ self.old.scan }
        ensures commits { OnOk result (Commits self.old self.new) }
        ensures place { self.new.place ≡ self.old.place }
        ensures within { AreWithinLimit 65536 self.old.newer.offsets → AreWithinLimit 65536 self.new.newer.offsets }
    {
        put_all(&mut self.newer, &self.pending)?;
        self.pending.clear();
        Ok(())
    }

    /// The least number of pages since the place with the commit that the scan has just taken.
    fn least_after(&self, commit: u32) -> Option<u32>
        ensures { (log : List ℕ) (q : MarkValue) → HasTaken self.now.scan log → last_mark_of log ≡ Some q
            → result ≡ least_with self.now.least (is_place self.now.place (place_at q)) commit }
    {
        match self.least {
            Some(least) => Some(least.min(commit)),
            None if self.is_at_place() => Some(commit),
            None => None,
        }
    }

    /// Whether the last mark is that of the place.
    fn is_at_place(&self) -> bool
        ensures { (log : List ℕ) (q : MarkValue) → HasTaken self.now.scan log → last_mark_of log ≡ Some q
            → result ≡ is_place self.now.place (place_at q) }
    {
        match self.scan.last() {
            Some(mark) => self.place == Some(place_of(&mark)),
            None => false,
        }
    }
}

/// Puts the offsets of the pages in, one after the other. `Memory` for want of it.
fn put_all(offsets: &mut PageMap, pages: &[PageOffset]) -> Result<(), Memory>
    ensures value { OnOk result (offsets.new.offsets ≡ spec.put_all offsets.old.offsets pages.now) }
    ensures within { AreWithinLimit 65536 offsets.old.offsets → AreWithinLimit 65536 offsets.new.offsets }
{
    for page in pages {
        offsets.put(page.number, page.at.get())?;
    }
    Ok(())
}

/// The place of a mark.
pub(crate) fn place_of(mark: &Mark) -> Place
    ensures { result ≡ place_at mark.now }
{
    Place::Wal {
        salt1: mark.salt1,
        salt2: mark.salt2,
        end: mark.end,
        s0: mark.s0,
        s1: mark.s1,
    }
}
