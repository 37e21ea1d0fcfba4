//! What a follower answers over logs of a few frames. The answers are worked by hand from what a log means; the
//! offsets follow from the file format: a header of 32 bytes, and frames of 24 bytes and a page.

ghost use Rattle.std.specs.Prelude.{◌≡◌, ◌≤◌, length};

use super::*;
use crate::gathering::Gathering;
use crate::log_scan::LogScan;
use crate::silent_live::SilentLive;
use live_gate::LiveFault;
use ls_base::{Line, Memory, PageSize, Place};
use ls_sums::{Order, WalSum};
use std::alloc::Global;
use std::test::Fail;
use wal_frames::{WalHeader, write_frame, write_wal_header};

/// A frame: its page's number, its commit's size or 0, and the byte that its page is filled with.
type Frame = (u32, u32, u8);

/// Two commits of which the second makes the database smaller, and a loose frame.
const FRAMES: [Frame; 5] = [(1, 0, 9), (2, 4, 9), (3, 0, 9), (2, 2, 9), (1, 0, 9)];

/// An offset behind every log.
const NOWHERE: usize = usize::MAX;

/// The bytes of these frames behind a header.
fn frames_of(alloc: Global, head: &WalHeader, frames: &[Frame]) -> Result<Vec<u8>, Memory> {
    let size = head.size.get() as usize;
    let mut bytes = Vec::new(alloc);
    let mut sums = WalSum {
        s0: head.s0,
        s1: head.s1,
    };
    for (number, commit, fill) in frames {
        let page = vec![in alloc; *fill; size]?;
        let mut frame = vec![in alloc; 0u8; size + 24]?;
        sums = write_frame(head, sums, *number, *commit, &page, &mut frame);
        bytes.extend_from_slice(&frame)?;
    }
    Ok(bytes)
}

/// A log of these frames with pages of this size, and with this first salt.
fn log_of(alloc: Global, size: u32, salt: u32, frames: &[Frame]) -> Result<Vec<u8>, Fail> {
    let size = PageSize::from_u32(size).ok_or("a page size")?;
    let head = WalHeader::new(Order::Big, size, 0, salt, 2);
    let mut front = [0; 32];
    write_wal_header(&head, &mut front);
    let mut log = Vec::new(alloc);
    log.extend_from_slice(&front)?;
    log.extend_from_slice(&frames_of(alloc, &head, frames)?)?;
    Ok(log)
}

/// The first bytes of a database file in WAL mode whose field of the page size is this.
fn head_of(field: [u8; 2]) -> [u8; 100] {
    let mut head = [0; 100];
    head[..16].copy_from_slice(b"SQLite format 3\0");
    head[16] = field[0];
    head[17] = field[1];
    head[18] = 2;
    head[19] = 2;
    head[21] = 64;
    head[22] = 32;
    head[23] = 32;
    head
}

/// A database with pages of 512 bytes and this log.
fn live_of(log: Vec<u8>) -> SilentLive {
    SilentLive {
        head: head_of([2, 0]),
        len: log.len(),
        log,
        calls_left: u64::MAX,
        taken: 0,
        next: 0,
    }
}

/// What `next` answers. Of the pages of a piece the first four, with 0 where there are fewer.
#[derive(Clone, Copy, Debug, PartialEq, Eq)]
enum Answer {
    Same,
    Whole(u32),
    Pages(u32, [u32; 4]),
    Refused(FollowFault),
}

fn first_four(wanted: &Wanted) -> [u32; 4] {
    match wanted {
        Wanted::All => [0; 4],
        Wanted::Listed(numbers) => [0, 1, 2, 3].map(|at| numbers.get(at).unwrap_or(0)),
    }
}

/// What the follower answers, which records what it found.
fn followed(follower: &mut Follower, live: &mut SilentLive) -> Answer {
    match follower.next(live) {
        Ok(Next::Same) => Answer::Same,
        Ok(Next::Lost(found)) => {
            follower.stored(&found);
            Answer::Whole(found.commit)
        }
        Ok(Next::Piece(found)) => {
            follower.stored(&found);
            Answer::Pages(found.commit, first_four(&found.wanted))
        }
        Err(fault) => Answer::Refused(fault),
    }
}

#[test]
fn frames_behind_the_last_commit_are_not_gathered(rt: HostRuntime) -> Result<(), Fail> {
    let size = PageSize::from_u32(512).ok_or("512 is a page size")?;
    let head = WalHeader::new(Order::Big, size, 0, 1, 2);
    let bytes = frames_of(rt.alloc(), &head, &FRAMES)?;
    let scan = LogScan::begin(rt.alloc(), head)?;
    let mut all = Gathering::new(rt.alloc(), scan, None, Some(5));
    all.take(&bytes)?;
    assert_eq!(rt;
        [all.newer.get(1), all.newer.get(2), all.newer.get(3)],
        [Some(56), Some(1664), Some(1128)]
    );
    assert_eq!(rt; (all.newer.len(), all.least), (3, Some(2)));
    Ok(())
}

#[test]
fn the_laws_are_there() {
    piece_laws();
    follow_laws();
}

#[test]
fn the_first_call_answers_the_last_commit(rt: HostRuntime) -> Result<(), Fail> {
    let first = (1, 0, 11);
    let second = (2, 2, 22);
    for (field, size, frames, cut, answer) in [
        ([2, 0], 512, [first, second].as_slice(), 0, Answer::Whole(2)),
        // Frames that don't commit, and a commit whose page is cut.
        (
            [2, 0],
            512,
            [first, second, (1, 0, 33), (2, 0, 44)].as_slice(),
            0,
            Answer::Whole(2),
        ),
        (
            [2, 0],
            512,
            [first, second, (1, 1, 33)].as_slice(),
            1,
            Answer::Whole(2),
        ),
        ([0, 1], 65536, [(1, 1, 11)].as_slice(), 0, Answer::Whole(1)),
        // No commit: the page of the file.
        ([2, 0], 512, [first].as_slice(), 0, Answer::Whole(1)),
        (
            [2, 0],
            1024,
            [first, second].as_slice(),
            0,
            Answer::Refused(FollowFault::SizesDiffer { db: 512, wal: 1024 }),
        ),
        (
            [2, 0],
            512,
            [(1, 2147483649, 11)].as_slice(),
            0,
            Answer::Refused(FollowFault::TooLarge(1099511628288)),
        ),
    ] {
        let mut live = live_of(log_of(rt.alloc(), size, 1, frames)?);
        live.head = head_of(field);
        live.len = live.log.len().saturating_sub(cut);
        let mut follower = Follower::start(rt.alloc(), None);
        assert_eq!(rt; (follower.place(), follower.frames()), (None, 0));
        assert_eq!(rt; followed(&mut follower, &mut live), answer);
        if let Answer::Whole(_) = answer {
            assert_eq!(rt; followed(&mut follower, &mut live), Answer::Same);
        }
    }
    Ok(())
}

/// The numbers of the piece that the follower finds and records, and the last byte of each page.
fn piece_of(
    alloc: Global,
    follower: &mut Follower,
    live: &mut SilentLive,
) -> Result<([u32; 4], [u8; 4]), Fail> {
    let Next::Piece(found) = follower.next(live)? else {
        return Err("a piece is to be found")?;
    };
    let numbers = first_four(&found.wanted);
    let mut fills = [0; 4];
    for k in 0..4 {
        let number = numbers[k];
        if number >= 1 && number <= found.commit {
            let mut page = vec![in alloc; 1u8; found.size.get() as usize]?;
            follower.page(live, &found, number, &mut page)?;
            fills[k] = page.last().copied().unwrap_or(1);
        }
    }
    follower.confirm(live, &found)?;
    follower.stored(&found);
    Ok((numbers, fills))
}

#[test]
fn a_piece_leads_to_the_next_commit(rt: HostRuntime) -> Result<(), Fail> {
    let eight = [
        (1, 0, 11),
        (2, 0, 22),
        (3, 0, 33),
        (4, 0, 44),
        (5, 0, 55),
        (6, 0, 66),
        (7, 0, 77),
        (8, 8, 88),
        (1, 5, 12),
        (1, 0, 13),
        (6, 0, 67),
        (8, 8, 89),
    ];
    for (field, size, frames, first, answer, piece) in [
        (
            [2, 0],
            512,
            [(1, 0, 11), (2, 2, 22), (2, 2, 33), (2, 2, 44), (2, 2, 55)].as_slice(),
            2,
            Answer::Whole(2),
            ([2, 0, 0, 0], [55, 0, 0, 0]),
        ),
        // Smaller and larger again: a page that nobody wrote since grows back.
        (
            [2, 0],
            512,
            eight.as_slice(),
            8,
            Answer::Whole(8),
            ([1, 6, 7, 8], [13, 67, 77, 89]),
        ),
        // The lock page is never one of them.
        (
            [0, 1],
            65536,
            [(1, 16400, 1), (1, 16384, 2), (1, 16386, 3)].as_slice(),
            1,
            Answer::Whole(16400),
            ([1, 16386, 0, 0], [3, 0, 0, 0]),
        ),
    ] {
        let mut live = live_of(log_of(rt.alloc(), size, 1, frames)?);
        live.head = head_of(field);
        let whole = live.len;
        live.len = 32 + first * (24 + size as usize);
        let mut follower = Follower::start(rt.alloc(), None);
        assert_eq!(rt; followed(&mut follower, &mut live), answer);
        live.len = whole;
        live.taken = 0;
        assert_eq!(rt; piece_of(rt.alloc(), &mut follower, &mut live)?, piece);
        assert_eq!(rt; follower.frames(), frames.len() as u64);
    }
    Ok(())
}

/// The place of the last commit of this log.
fn place_in(alloc: Global, log: Vec<u8>) -> Result<Place, Fail> {
    let mut live = live_of(log);
    let mut follower = Follower::start(alloc, None);
    match follower.next(&mut live)? {
        Next::Lost(found) => Ok(found.place),
        _ => Err("a commit is to be found")?,
    }
}

/// A follower that starts there.
fn follower_at(alloc: Global, place: Place) -> Result<Follower, Fail> {
    match place {
        Place::Wal { end, .. } if end >= 32 => Ok(Follower::start(
            alloc,
            Some(Line { place, moment: 5 }),
        )),
        _ => Err("a place in a log")?,
    }
}

#[test]
fn a_place_is_looked_for_in_the_log(rt: HostRuntime) -> Result<(), Fail> {
    let frames = [(1, 0, 11), (2, 2, 22), (1, 0, 33), (2, 2, 44)];
    for (salt, count, damage, answer) in [
        (1, 2, NOWHERE, Answer::Pages(2, [1, 2, 0, 0])),
        (1, 4, NOWHERE, Answer::Same),
        // The log was begun anew; the first frame of the last commit is torn; the log's header is damaged.
        (3, 2, NOWHERE, Answer::Whole(2)),
        (1, 4, 1300, Answer::Whole(2)),
        (1, 2, 31, Answer::Whole(1)),
    ] {
        let place = place_in(rt.alloc(), log_of(rt.alloc(), 512, salt, &frames[..count])?)?;
        let mut follower = follower_at(rt.alloc(), place)?;
        assert_eq!(rt;
            (follower.place().copied(), follower.frames()),
            (Some(place), 0)
        );
        let mut log = log_of(rt.alloc(), 512, 1, &frames)?;
        if damage < log.len() {
            log[damage] ^= 1;
        }
        assert_eq!(rt; followed(&mut follower, &mut live_of(log)), answer);
    }
    Ok(())
}

#[test]
fn a_pass_empties_the_log_at_the_place(rt: HostRuntime) -> Result<(), Fail> {
    let mut live = live_of(log_of(rt.alloc(), 512, 1, &[(1, 0, 11), (2, 2, 22)])?);
    let mut follower = Follower::start(rt.alloc(), None);
    let Next::Lost(found) = follower.next(&mut live)? else {
        return Err("a commit is to be found")?;
    };
    follower.stored(&found);
    let Place::Wal { .. } = found.place else {
        return Err("a place in the log")?;
    };
    assert_eq!(rt; follower.frames(), 2);
    follower.passed();
    assert_eq!(rt; follower.frames(), 0);
    live.len = 0;
    assert_eq!(rt; followed(&mut follower, &mut live), Answer::Same);
    let mut live = live_of(log_of(rt.alloc(), 512, 3, &[(2, 2, 66)])?);
    let piece = ([2, 0, 0, 0], [66, 0, 0, 0]);
    assert_eq!(rt; piece_of(rt.alloc(), &mut follower, &mut live)?, piece);
    Ok(())
}

#[test]
fn each_call_on_the_live_database_may_fail(rt: HostRuntime) -> Result<(), Fail> {
    let log = log_of(rt.alloc(), 512, 1, &[(1, 0, 11), (2, 2, 22), (2, 2, 33)])?;
    let mut live = live_of(log);
    let failed = Answer::Refused(FollowFault::Live(LiveFault));
    let mut follower = Follower::start(rt.alloc(), None);
    // The head of the file, the log's length, an aim and two reads; behind the place one aim more.
    for (len, all, answer, most) in [
        (1104, 5, Answer::Whole(2), 1104),
        (1640, 6, Answer::Pages(2, [2, 0, 0, 0]), 568),
    ] {
        live.len = len;
        for calls in 0..all {
            live.calls_left = calls;
            assert_eq!(rt; followed(&mut follower, &mut live), failed);
        }
        live.calls_left = all;
        live.taken = 0;
        assert_eq!(rt; followed(&mut follower, &mut live), answer);
        assert!(rt; live.taken <= most);
    }
    Ok(())
}
