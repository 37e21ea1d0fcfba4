ghost use Rattle.std.specs.Prelude.{ℕ, ◌≤◌, IfOk};
ghost use Rattle.snapshot_read.specs.Offsets.{AreWithinLimit};

use super::*;
use crate::failing_live::FailingLive;
use crate::rest::sum_with;
use live_gate::{Live, LiveFault, StillLive};
use ls_base::{Memory, PageSize, Place};
use std::alloc::Global;
use std::test::Fail;

/// A log of this length, each byte its offset's lowest byte.
fn log_of(alloc: Global, len: usize) -> Result<Vec<u8>, Memory> {
    let mut log = Vec::new(alloc);
    for at in 0..len {
        log.push((at % 256) as u8)?;
    }
    Ok(log)
}

/// One offset, under this number.
fn map_of(alloc: Global, number: u32, at: u32) -> Result<PageMap, Memory>
    ensures { IfOk result (λ map. (size : ℕ) → size ≤ 65536 → AreWithinLimit size map.offsets) }
{
    let mut map = PageMap::new(alloc);
    map.put(number, u64::from(at))?;
    Ok(map)
}

#[test]
fn offsets_stand_under_their_numbers(rt: HostRuntime) -> Result<(), Fail> {
    let mut map = PageMap::new(rt.alloc());
    for (number, at) in [(7, 1100), (1, 56), (3, 600), (3, 1700)] {
        map.put(number, at)?;
    }
    assert_eq!(rt; (map.len(), map.has(2), map.has(3)), (3, false, true));
    let mut newer = PageMap::new(rt.alloc());
    for (number, at) in [(3, 2300), (2, 2900)] {
        newer.put(number, at)?;
    }
    map.reserve(newer.len())?;
    map.take_in(&mut newer);
    assert_eq!(rt; (newer.len(), newer.is_empty()), (0, true));
    assert!(rt; map.numbers(rt.alloc())?.as_slice() == [1, 2, 3, 7].as_slice());
    for (number, at) in [
        (0, None),
        (1, Some(56)),
        (2, Some(2900)),
        (3, Some(2300)),
        (7, Some(1100)),
    ] {
        assert_eq!(rt; map.get(number), at, "{number}");
    }
    map.clear();
    assert_eq!(rt; (map.len(), map.is_empty(), map.has(1)), (0, true, false));
    Ok(())
}

#[test]
fn a_page_comes_from_the_log_else_from_the_file(rt: HostRuntime) -> Result<(), Fail> {
    let log = log_of(rt.alloc(), 2000)?;
    let mut live = StillLive::new(rt.alloc(), &[7; 700], log.as_slice())?;
    let size = PageSize::from_u32(512).ok_or("512 is a page size")?;
    // Four bytes of pages in the log, of one that the file has in part, and of one past its end.
    for (at, number, bytes) in [
        (56, 3, [56, 243, 244, 55]),
        (600, 3, [88, 19, 20, 87]),
        (56, 2, [7, 7, 0, 0]),
        (56, 4, [0, 0, 0, 0]),
    ] {
        let map = map_of(rt.alloc(), 3, at)?;
        let mut page = [1; 512];
        page_at(&mut live, &map, size, number, &mut page)?;
        assert_eq!(rt;
            [page[0], page[187], page[188], page[511]],
            bytes,
            "of {number}"
        );
    }
    Ok(())
}

/// A live database of which so many calls succeed.
fn failing_after(calls: u64) -> FailingLive {
    FailingLive {
        calls_left: calls,
        faults: 0,
        next: 0,
    }
}

#[test]
fn the_lock_page_is_zeros_and_no_call_is_made(rt: HostRuntime) -> Result<(), Fail> {
    let mut live = failing_after(0);
    let size = PageSize::from_u32(65536).ok_or("65536 is a page size")?;
    let map = map_of(rt.alloc(), 16385, 32)?;
    let mut page = vec![in rt.alloc(); 1u8; 65536]?;
    page_at(&mut live, &map, size, 16385, page.as_mut_slice())?;
    assert_eq!(rt; (page[0], page[65535]), (0, 0));
    Ok(())
}

/// What reading a page answers where so many calls succeed, and the page's last byte. Page 3 begins in the log
/// at this offset, page 4 is the database file's.
fn tried(
    alloc: Global,
    at: u32,
    in_log: bool,
    calls: u64,
) -> Result<(Result<(), PageFault>, u8), Fail> {
    let mut live = failing_after(calls);
    let map = map_of(alloc, 3, at)?;
    let size = PageSize::from_u32(512).ok_or("512 is a page size")?;
    let mut page = [9; 512];
    let number = if in_log { 3 } else { 4 };
    let answer = page_at(&mut live, &map, size, number, &mut page);
    Ok((answer, page[511]))
}

#[test]
fn a_call_that_fails_and_a_log_that_ends_are_told_apart(rt: HostRuntime) -> Result<(), Fail> {
    let failed = Err(PageFault::Live(LiveFault));
    // A page of the log takes four calls, one of the file a single one. A log that ends is told by the
    // offset of the byte that didn't come: its end, or behind it the begin of the page.
    for (at, in_log, calls, answer, last) in [
        (56, true, 0, failed, 9),
        (56, true, 1, failed, 9),
        (56, true, 2, failed, 9),
        (56, true, 3, failed, 9),
        (56, true, 4, Ok(()), 5),
        (56, false, 0, failed, 9),
        (56, false, 1, Ok(()), 1),
        (1488, true, 9, Ok(()), 5),
        (1489, true, 9, Err(PageFault::Short { at: 2000 }), 9),
        (2000, true, 9, Err(PageFault::Short { at: 2000 }), 9),
        (5000, true, 9, Err(PageFault::Short { at: 5000 }), 9),
    ] {
        let told = tried(rt.alloc(), at, in_log, calls)?;
        assert_eq!(rt; told, (answer, last), "from {at} after {calls}");
    }
    Ok(())
}

/// The sum of the first pages of a database file of 700 sevens.
fn sum_of(alloc: Global, pages: u32) -> Result<Place, Fail> {
    let mut live = StillLive::new(alloc, &[7; 700], b"")?;
    let size = PageSize::from_u32(512).ok_or("512 is a page size")?;
    Ok(rest_place(&mut live, size, pages, &mut [0; 512])?)
}

#[test]
fn the_sum_at_rest_is_that_of_the_pages(rt: HostRuntime) -> Result<(), Fail> {
    // Computed by another program.
    for (pages, sum) in [
        (0, 0x8000_0000_0000_0000),
        (1, 0xbf1b_6cc7_6451_1888),
        (2, 0xd4e2_d04f_46dc_cc9d),
        (3, 0xbbcf_3360_aa05_5c9d),
    ] {
        assert_eq!(rt;
            sum_of(rt.alloc(), pages)?,
            Place::Rest { sum },
            "of {pages}"
        );
    }
    Ok(())
}

#[test]
fn a_sum_fails_with_a_call_and_the_lock_page_takes_none(rt: HostRuntime) -> Result<(), Fail> {
    let size = PageSize::from_u32(65536).ok_or("65536 is a page size")?;
    let mut buffer = vec![in rt.alloc(); 1u8; 65536]?;
    let page = buffer.as_mut_slice();
    let mut live = failing_after(2);
    assert_eq!(rt; rest_place(&mut live, size, 3, page), Err(LiveFault));
    assert_eq!(rt; sum_with(&mut live, size, 16385, 5, page), Ok(5));
    assert_eq!(rt; sum_with(&mut live, size, 16386, 5, page), Err(LiveFault));
    Ok(())
}
