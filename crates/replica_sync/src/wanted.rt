//! The numbers of the pages that are stored.

ghost use Rattle.std.specs.Prelude.{◌≡◌, ◌≢◌, ℕ, ◌+◌, ◌*◌, ◌^◌, ◌≤◌, ◌<◌};
ghost use Rattle.std.specs.List.{Contains};
ghost use Rattle.std.specs.List.Sorted.{IsStrictlyIncreasing};
ghost use Rattle.std.specs.Bool.{OnTrue};
ghost use Rattle.ls_base.specs.Limits.{log_limit};
ghost use Rattle.ls_base.specs.PageSize.{lock_page};
ghost use Rattle.ltx_format.specs.LtxFormat.{IsPlaceFor};
ghost use Rattle.wal_follow.specs.declared.answer.Wanted.TheVariants.{All};
ghost use Rattle.replica_sync.specs.Pages as spec;
ghost use Rattle.replica_sync.specs.Pages.{IsStorable, IsWanted};

use ls_base::{DATABASE_LIMIT, LOG_LIMIT, PageList, PageSize, Place};
use wal_follow::{Found, Wanted};

/// The bit that the sum of a place at rest has.
const REST_BIT: u64 = 1 << 63;

/// The length of a log's header, and that of a frame's, in bytes.
const LOG_HEADER_BYTES: u64 = 32;

const FRAME_HEADER_BYTES: u64 = 24;

/// How many pages are stored.
pub(crate) fn count_of(found: &Found) -> u64
    ensures { result ≡ spec.count_of found.now }
{
    match &found.wanted {
        Wanted::All if found.size.lock_page() <= found.commit => found.commit as u64 - 1,
        Wanted::All => found.commit as u64,
        Wanted::Listed(numbers) => numbers.len(),
    }
}

/// The number of the page at this place among those that are stored, counted from 0.
pub(crate) fn number_at(found: &Found, at: u64) -> u32
    requires storable { IsStorable found.now }
    requires within { at < spec.count_of found.now }
    ensures { result ≡ spec.number_at found.now at }
{
    match &found.wanted {
        Wanted::All => number_of_all(found.size.lock_page(), at as u32),
        Wanted::Listed(numbers) => match numbers.get(at) {
            Some(number) => number,
            None => unreachable!(),
        },
    }
}

/// The number of the page at this place among all but the lock page.
fn number_of_all(lock: u32, at: u32) -> u32
    requires fits { at + 2 < 2 ^ 32 }
    ensures { result ≡ spec.number_in All lock at }
{
    if at + 1 < lock {
        return at + 1;
    }
    at + 2
}

/// Whether a file can hold what was found. What a follower finds always is so; over a live database that tells
/// nothing no contract says it.
pub(crate) fn is_storable(found: &Found) -> bool
    ensures { OnTrue result (IsStorable found.now) }
{
    let bytes = found.commit as u64 * found.size.get() as u64;
    1 <= found.commit
        && bytes <= DATABASE_LIMIT
        && is_place_for(found.size, found.place)
        && are_numbers(found)
}

/// Whether the place is one in a log of this page size, or at rest.
fn is_place_for(size: PageSize, place: Place) -> bool
    ensures { OnTrue result (IsPlaceFor size place) }
{
    match place {
        Place::Rest { sum } => REST_BIT <= sum,
        Place::Wal { end, .. } => is_frame_end(size, end),
    }
}

/// Whether frames of a log of this page size end there, and the log is short enough.
fn is_frame_end(size: PageSize, end: u64) -> bool
    ensures { OnTrue result ((frames : ℕ) × (1 ≤ frames) × (end ≡ 32 + frames * (24 + size)) × (end ≤ log_limit)) }
{
    if end <= LOG_HEADER_BYTES {
        return false;
    }
    if end > LOG_LIMIT {
        return false;
    }
    let frame = FRAME_HEADER_BYTES + size.get() as u64;
    (end - LOG_HEADER_BYTES) % frame == 0
}

/// Whether each page that is wanted may stand in a file.
fn are_numbers(found: &Found) -> bool
    ensures numbers { OnTrue result ((p : ℕ) → IsWanted found.now p
        → (1 ≤ p) × (p ≤ found.now.commit) × (p ≢ lock_page found.now.size)) }
    ensures rising { OnTrue result (spec.AreRising found.now.wanted) }
{
    match &found.wanted {
        Wanted::All => true,
        Wanted::Listed(numbers) => are_listed(numbers, found.commit, found.size.lock_page()),
    }
}

fn are_listed(numbers: &PageList, commit: u32, lock: u32) -> bool
    ensures numbers { OnTrue result ((p : ℕ) → Contains numbers.now p → (1 ≤ p) × (p ≤ commit) × (p ≢ lock)) }
    ensures rising { OnTrue result (IsStrictlyIncreasing numbers.now) }
{
    for at in 0..numbers.len() {
        let Some(number) = numbers.get(at) else {
            unreachable!()
        };
        if number < 1 || number > commit || number == lock {
            return false;
        }
    }
    true
}
