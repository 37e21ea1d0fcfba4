//! What syncs of small databases store.

ghost use Rattle.std.specs.Prelude.{option_map};
ghost use Rattle.wal_follow.specs.Calls.{IsBehindHeader};

use crate::content::{
    FOUR_COMMITS, LARGE_COMMIT, LARGE_WHOLE, Log, MOMENT, PIECE, Stored, WHOLE, WHOLE_LINE,
    files_in,
};
use crate::syncing::synced;
use crash_disk::MemDisk;
use ls_base::Line;
use replica_store::read_name;
use replica_sync::Synced;
use std::alloc::Global;
use std::process::Abort;
use std::test::Fail;

/// What a sync answers.
#[derive(Clone, Copy)]
enum Kind {
    Same,
    Piece,
    Whole,
}

/// A sync of a database with the log up to the end of so many frames, in a run whose newest line is that of the first
/// file or that has none; what it answers, a file that is there then, and how many are.
#[derive(Clone, Copy)]
struct Row {
    log: Log,
    frames: usize,
    follows: bool,
    now: u64,
    kind: Kind,
    stored: Stored,
    files: usize,
}

/// The syncs of one replica, one after the other.
const ROWS: [Row; 3] = [
    Row {
        log: FOUR_COMMITS,
        frames: 2,
        follows: false,
        now: MOMENT,
        kind: Kind::Whole,
        stored: WHOLE,
        files: 1,
    },
    Row {
        log: FOUR_COMMITS,
        frames: 2,
        follows: true,
        now: MOMENT,
        kind: Kind::Same,
        stored: WHOLE,
        files: 1,
    },
    Row {
        log: FOUR_COMMITS,
        frames: 5,
        follows: true,
        now: MOMENT + 1_000,
        kind: Kind::Piece,
        stored: PIECE,
        files: 2,
    },
];

/// The sync of another one.
const LARGE: Row = Row {
    log: LARGE_COMMIT,
    frames: 1,
    follows: false,
    now: MOMENT,
    kind: Kind::Whole,
    stored: LARGE_WHOLE,
    files: 1,
};

/// The newest line of the run.
fn newest(row: &Row) -> Option<Line>
    ensures { IsBehindHeader (option_map (λ line. line.place) result) }
{
    if row.follows {
        return Some(WHOLE_LINE);
    }
    None
}

/// Whether this is what the row says.
fn is_wanted(row: &Row, answer: Synced) -> bool {
    let path = row.stored.path;
    match (row.kind, answer) {
        (Kind::Same, Synced::Same) => true,
        (Kind::Piece, Synced::Piece(name)) => read_name(path) == Some(name),
        (Kind::Whole, Synced::Whole(name)) => read_name(path) == Some(name),
        _ => false,
    }
}

fn check(rt: &impl Abort, alloc: Global, store: &mut MemDisk, row: &Row) -> Result<(), Fail> {
    let mut live = row.log.live(alloc, row.frames)?;
    let answer = synced(alloc, &mut live, store, newest(row), row.now)?;
    assert!(rt; is_wanted(row, answer));
    assert!(rt; row.stored.is_in(alloc, store)?);
    assert_eq!(rt; files_in(alloc, store)?, row.files);
    Ok(())
}

#[test]
fn a_sync_stores_the_whole_state_then_nothing_then_a_piece(rt: HostRuntime) -> Result<(), Fail> {
    let mut store = MemDisk::new(rt.alloc());
    for row in &ROWS {
        check(&rt, rt.alloc(), &mut store, row)?;
    }
    Ok(())
}

#[test]
fn a_page_of_the_largest_size_is_stored(rt: HostRuntime) -> Result<(), Fail> {
    let mut store = MemDisk::new(rt.alloc());
    check(&rt, rt.alloc(), &mut store, &LARGE)
}
