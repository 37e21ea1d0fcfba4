ghost use Rattle.std.specs.Prelude.{◌≡◌, ◌<◌};

use super::*;
use std::marker::Brand;
use std::sync::ledger::{Blank, Ledger};
use std::test::Fail;

#[test]
fn page_sizes_are_the_powers_of_two_in_range(rt: HostRuntime) {
    for (n, valid) in [
        (512, true),
        (4096, true),
        (65536, true),
        (0, false),
        (256, false),
        (513, false),
        (131072, false),
    ] {
        assert_eq!(rt; PageSize::from_u32(n).is_some(), valid, "at {n}");
    }
}

#[test]
fn texts_of_transactions_are_read_and_written(rt: HostRuntime) {
    for (text, number) in [
        ("1", 1),
        ("0000000000000001", 1),
        ("fF", 255),
        ("ffffffffffffffff", u64::MAX),
        ("0", 0),
        ("", 0),
        ("+1", 0),
        ("1g", 0),
        ("00000000000000001", 0),
    ] {
        let read = Txid::from_hex(text).map_or(0, |txid| txid.number());
        assert_eq!(rt; read, number, "of {text}");
    }
    let digits = Txid::new(0xAB).map(|txid| txid.digits());
    assert_eq!(rt; digits, Some(*b"00000000000000ab"));
}

#[test]
fn pages_and_bytes_are_kept(rt: HostRuntime) -> Result<(), Fail> {
    let size = PageSize::from_u32(512).ok_or("512 is a page size")?;
    let mut page = Page::zeroed(rt.alloc(), size)?;
    page.bytes_mut().copy_from_slice(&[7; 512]);
    let mut pages = Pages::new(rt.alloc());
    assert!(rt; pages.is_empty());
    pages.push(page)?;
    assert_eq!(rt; pages.len(), 1);
    assert_eq!(rt; pages.get(0).map(|page| page.bytes()[511]), Some(7));
    let mut changed = ChangePages::new(rt.alloc());
    changed.put(2, Page::copied(rt.alloc(), &[1])?)?;
    changed.put(2, Page::copied(rt.alloc(), &[2])?)?;
    assert_eq!(rt; changed.get(2).map(|page| page.bytes().len()), Some(1));
    assert!(rt; changed.get(1).is_none());
    let mut bytes = Bytes::from_vec(Bytes::new(rt.alloc()).into_vec());
    bytes.extend(b"ab")?;
    bytes.extend(b"c")?;
    assert_eq!(rt; bytes.as_slice(), b"abc".as_slice());
    Ok(())
}

#[test]
fn the_lock_page_holds_byte_2_to_the_30(rt: HostRuntime) -> Result<(), Fail> {
    for (n, number) in [
        (512, 2097153),
        (1024, 1048577),
        (4096, 262145),
        (32768, 32769),
        (65536, 16385),
    ] {
        let size = PageSize::from_u32(n).ok_or("a page size")?;
        assert_eq!(rt; size.lock_page(), number, "at {n}");
    }
    Ok(())
}

#[test]
fn numbers_are_told_in_rising_order(rt: HostRuntime) -> Result<(), Fail> {
    let mut list = PageList::new(rt.alloc());
    assert!(rt; list.is_empty());
    list.push(3)?;
    list.push(u32::MAX)?;
    assert_eq!(rt; list.len(), 2);
    for (at, number) in [
        (0, Some(3)),
        (1, Some(u32::MAX)),
        (2, None),
        (u64::MAX, None),
    ] {
        assert_eq!(rt; list.get(at), number, "at {at}");
    }
    let mut changed = ChangePages::new(rt.alloc());
    for number in [7, 2, 9, 2] {
        changed.put(number, Page::copied(rt.alloc(), &[1])?)?;
    }
    for (at, number) in [
        (0, Some(2)),
        (1, Some(7)),
        (2, Some(9)),
        (3, None),
        (u64::MAX, None),
    ] {
        assert_eq!(rt; changed.number_at(at), number, "at {at}");
    }
    Ok(())
}

fn two_steps<L: Ledger>(blank: Blank)
    requires name { blank.name ≡ L.name }
    requires parts { blank.parts ≡ L.parts }
    requires some { 0 < blank.parts }
{
    let mut steps = Steps::<L>::new(blank);
    steps.tick();
    steps.tick();
    counted(&steps);
}

/// Needs that two steps were taken, which the contract of `tick` alone shows.
fn counted<L: Ledger>(_steps: &Steps<L>)
    requires { _steps.now ≡ 2 }
{}

#[test]
fn steps_are_counted(_rt: HostRuntime) {
    two_steps::<Brand>(Blank::new(1));
}
