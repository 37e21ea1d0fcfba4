//! Moments and listings, worked out apart from the program.

use super::*;
use crash_disk::MemOut;
use ls_base::Txid;
use replica_store::{Dated, FileName};
use std::alloc::Global;
use std::test::*;

/// Moments in milliseconds with their texts, by Python's calendar.
const MOMENTS: [(u64, &str); 8] = [
    (0, "1970-01-01T00:00:00.000Z"),
    (951_827_696_789, "2000-02-29T12:34:56.789Z"),
    (94_694_399_999, "1972-12-31T23:59:59.999Z"),
    (4_107_542_400_000, "2100-03-01T00:00:00.000Z"),
    (1_700_000_001_000, "2023-11-14T22:13:21.000Z"),
    (253_402_300_799_999, "9999-12-31T23:59:59.999Z"),
    (253_402_300_800_000, "253402300800000"),
    (18_446_744_073_709_551_615, "18446744073709551615"),
];

#[test]
fn tells_moments_by_the_calendar(rt: HostRuntime) -> Result<(), Fail> {
    for (moment, text) in MOMENTS.iter() {
        assert!(rt;
            moment_text(*moment).as_slice() == text.as_bytes(),
            "moment {moment}"
        );
    }
    Ok(())
}

fn dated(level: u8, min: u64, max: u64, moment: u64) -> Result<Dated, Fail> {
    let min = Txid::new(min).ok_or("a first transaction")?;
    let max = Txid::new(max).ok_or("a last transaction")?;
    let name = FileName::new(level, min, max).ok_or("a name")?;
    Ok(Dated { name, moment })
}

/// Two files: one of a transaction, and one of the whole database.
const TWO: &[u8] = b"level min_txid max_txid size created\n\
0 0000000000000002 0000000000000002 640 2023-11-14T22:13:21.000Z\n\
9 0000000000000001 0000000000000001 1158 2023-11-14T22:13:20.000Z\n";

#[test]
fn lists_files_with_sizes_and_moments(rt: HostRuntime) -> Result<(), Fail> {
    let names = [
        dated(0, 2, 2, 1_700_000_001_000)?,
        dated(9, 1, 1, 1_700_000_000_000)?,
    ];
    let mut out = MemOut::new(rt.alloc());
    print_listing(&mut out, &names, &[640, 1158])?;
    assert!(rt; out.bytes() == TWO);
    let mut out = MemOut::new(rt.alloc());
    print_listing(&mut out, &[], &[])?;
    assert!(rt; out.bytes() == b"level min_txid max_txid size created\n".as_slice());
    let mut out = MemOut::new(rt.alloc());
    out.fail_at(1)?;
    assert!(rt; print_listing(&mut out, &names, &[640, 1158]).is_err());
    assert!(rt; out.bytes().is_empty());
    Ok(())
}

/// A listing that goes out in more than one piece: 1000 lines of 65 bytes.
#[test]
fn lists_in_pieces(rt: HostRuntime) -> Result<(), Fail> {
    let one = dated(0, 2, 2, 1_700_000_001_000)?;
    let names = Vec::from_elem(rt.alloc(), one, 1000)?;
    let sizes = Vec::from_elem(rt.alloc(), 640u64, 1000)?;
    let mut out = MemOut::new(rt.alloc());
    print_listing(&mut out, names.as_slice(), sizes.as_slice())?;
    assert_eq!(rt; out.bytes().len(), 37 + 1000 * 65);
    Ok(())
}
