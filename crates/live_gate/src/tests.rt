use super::*;
use ls_base::{PageSize, Place};
use std::test::Fail;

/// How many bytes three reads of up to four give from the offset on, and what then stands in the buffer.
fn in_fours<L: Live>(live: &mut L, at: u64) -> Result<([usize; 3], [u8; 4]), LiveFault> {
    let mut four = *b"....";
    live.aim(at)?;
    let first = live.read(&mut four)?;
    let second = live.read(&mut four)?;
    let third = live.read(&mut four)?;
    Ok(([first, second, third], four))
}

#[test]
fn a_still_database_gives_its_bytes(rt: HostRuntime) -> Result<(), Fail> {
    let file = [7; 700];
    let mut live = StillLive::new(rt.alloc(), &file, b"0123456789")?;
    assert_eq!(rt; live.attach(rt.alloc(), "any", true)?, Attached::Found);
    live.enter()?;
    let mut head = [0; 100];
    assert_eq!(rt; live.db_head(&mut head)?, 100);
    assert_eq!(rt; head[99], 7);
    assert_eq!(rt; live.db_size()?, 700);
    assert_eq!(rt; live.wal_size()?, 10);
    for (at, counts, left) in [
        (0, [4, 4, 2], b"8967"),
        (4, [4, 2, 0], b"8967"),
        (9, [1, 0, 0], b"9..."),
        (10, [0, 0, 0], b"...."),
        (u64::MAX, [0, 0, 0], b"...."),
    ] {
        assert_eq!(rt; in_fours(&mut live, at)?, (counts, *left), "from {at}");
    }
    live.leave()?;
    assert_eq!(rt; live.faults(), 0);
    Ok(())
}

#[test]
fn pages_end_in_zeros_and_no_pass_takes_place(rt: HostRuntime) -> Result<(), Fail> {
    let mut live = StillLive::new(rt.alloc(), &[7; 700], b"")?;
    let size = PageSize::from_u32(512).ok_or("512 is a page size")?;
    for (number, first, last) in [(1, 7, 7), (2, 7, 0), (3, 0, 0), (u32::MAX, 0, 0)] {
        let mut page = [1; 512];
        live.read_page(size, number, &mut page)?;
        assert_eq!(rt; (page[0], page[511]), (first, last), "of {number}");
    }
    let mut page = [1; 512];
    live.read_page(size, 2, &mut page)?;
    assert_eq!(rt; (page[187], page[188]), (7, 0));
    let mut head = [1; 100];
    let mut empty = StillLive::new(rt.alloc(), b"", b"")?;
    assert_eq!(rt; empty.db_head(&mut head)?, 0);
    assert_eq!(rt; live.pass(rt.alloc(), &Place::Rest { sum: 0 })?, Pass::Kept);
    Ok(())
}
