use crate::{DecodeFault, LtxFault, LtxHeader, decode, encode, read_ltx_header};
use ls_base::{Bytes, PageSize, Place, Txid};
use ls_sums::{Crc64, Order, WalSum};
use std::alloc::{AllocError, Global};
use std::test::*;

/// The first 48 bytes of a file of two pages of 512 bytes, transaction 1 alone, its moment
/// 1700000000000.
const START: [u8; 48] = [
    0x4c, 0x54, 0x58, 0x31, 0, 0, 0, 2, 0, 0, 2, 0, 0, 0, 0, 2, 0, 0, 0, 0, 0, 0, 0, 1, 0, 0, 0, 0,
    0, 0, 0, 1, 0, 0, 1, 0x8b, 0xcf, 0xe5, 0x68, 0, 0, 0, 0, 0, 0, 0, 0, 0,
];

/// The other 52, of a place in the log: end 1104, salts 1 and 2, and the running sums there.
const WAL: [u8; 52] = [
    0, 0, 0, 0, 0, 0, 0, 0x20, 0, 0, 0, 0, 0, 0, 4, 0x30, 0, 0, 0, 1, 0, 0, 0, 2, 0, 0, 0, 0, 0, 0,
    0, 0, 0xdf, 0xdb, 0xb9, 0xce, 0xd7, 0xa6, 0x1a, 0xc1, 0, 0, 0, 0, 0, 0, 0, 0, 0, 0, 0, 0,
];

/// The first 24 bytes of the log's header, which its sums take in: big-endian sums, pages of 512 bytes,
/// salts 1 and 2.
const LOG_HEADER: [u8; 24] = [
    0x37, 0x7f, 0x06, 0x83, 0, 0x2d, 0xe2, 0x18, 0, 0, 2, 0, 0, 0, 0, 0, 0, 0, 0, 1, 0, 0, 0, 2,
];

/// The same of a place at rest with sum 2^63.
const REST: [u8; 52] = [
    0, 0, 0, 0, 0, 0, 0, 0, 0, 0, 0, 0, 0, 0, 0, 0, 0, 0, 0, 0, 0, 0, 0, 0, 0, 0, 0, 0, 0, 0, 0, 0,
    0x80, 0, 0, 0, 0, 0, 0, 0, 0, 0, 0, 0, 0, 0, 0, 0, 0, 0, 0, 0,
];

/// The first 20 bytes of a database of pages of 512 bytes.
const DATABASE: [u8; 20] = *b"SQLite format 3\0\x02\0\x02\x02";

/// The index of a file of pages 1 and 2.
const INDEX: [u8; 12] = [0, 0, 0, 1, 0, 0, 0, 2, 0, 0, 0, 2];

/// The bytes, and their sum behind them.
fn summed(alloc: Global, bytes: &[u8]) -> Result<Vec<u8>, AllocError> {
    let mut file = Vec::from_slice(alloc, bytes)?;
    let mut check = Crc64::new();
    check.over(bytes);
    let sum = check.finish() | 1 << 63;
    file.extend_from_slice(&sum.to_be_bytes())?;
    Ok(file)
}

/// The file of two pages, with this index where it isn't empty.
fn two_pages(alloc: Global, place: &[u8], index: &[u8]) -> Result<Vec<u8>, AllocError> {
    let mut file = Vec::from_slice(alloc, &START[..7])?;
    file.push(if index.is_empty() { 2 } else { 6 })?;
    file.extend_from_slice(&START[8..])?;
    file.extend_from_slice(place)?;
    file.extend_from_slice(&[0, 0, 0, 1, 0, 0])?;
    file.extend_from_slice(&DATABASE)?;
    file.extend_from_slice(&[0; 80])?;
    file.extend_from_slice(&[0x11; 412])?;
    file.extend_from_slice(&[0, 0, 0, 2, 0, 0])?;
    file.extend_from_slice(&[0x22; 512])?;
    file.extend_from_slice(&[0; 6])?;
    file.extend_from_slice(index)?;
    file.extend_from_slice(&[0; 8])?;
    summed(alloc, &file)
}

#[test]
fn a_file_of_a_place_in_the_log(rt: HostRuntime) -> Result<(), Fail> {
    let file = two_pages(rt.alloc(), &WAL, &[])?;
    let read = decode(rt.alloc(), &file).ok().ok_or("it is a file")?;
    // behind the log's two frames, whose pages are those of the file
    let mut sums = WalSum::start().over(Order::Big, &LOG_HEADER);
    sums = sums.over(Order::Big, &[0, 0, 0, 1, 0, 0, 0, 0]);
    sums = sums.over(Order::Big, b"SQLite format 3\0\x02\0\x02\x02\0\0\0\0");
    sums = sums.over(Order::Big, &[0; 72]);
    sums = sums.over(Order::Big, &[0, 0, 0, 0, 0x11, 0x11, 0x11, 0x11]);
    sums = sums.over(Order::Big, &[0x11; 408]);
    sums = sums.over(Order::Big, &[0, 0, 0, 2, 0, 0, 0, 2]);
    sums = sums.over(Order::Big, &[0x22; 512]);
    assert_eq!(rt; (sums.s0, sums.s1), (0xdfdb_b9ce, 0xd7a6_1ac1));
    let header = LtxHeader {
        size: PageSize::from_u32(512).ok_or("a page size")?,
        commit: 2,
        min: Txid::new(1).ok_or("a transaction")?,
        max: Txid::new(1).ok_or("a transaction")?,
        moment: 1_700_000_000_000,
        place: Place::Wal {
            salt1: 1,
            salt2: 2,
            end: 1104,
            s0: sums.s0,
            s1: sums.s1,
        },
        index: false,
    };
    assert!(rt; read.header == header);
    Ok(())
}

/// What `encode` makes of the file that the bytes are.
fn written_again(alloc: Global, bytes: &[u8]) -> Option<Bytes> {
    match decode(alloc, bytes) {
        Ok(file) => encode(alloc, &file).ok(),
        Err(_) => None,
    }
}

#[test]
fn a_file_is_written_as_it_was_read(rt: HostRuntime) -> Result<(), Fail> {
    for (index, length) in [(&INDEX[..0], 1158), (&INDEX[..], 1170)] {
        let file = two_pages(rt.alloc(), &REST, index)?;
        assert_eq!(rt; file.len(), length);
        let read = decode(rt.alloc(), &file).ok().ok_or("it is a file")?;
        assert_eq!(rt; read.header.place, Place::Rest { sum: 1 << 63 });
        assert_eq!(rt; read.header.index, !index.is_empty());
        let first = read.pages.get(1).ok_or("page 1")?;
        assert!(rt; first.bytes().starts_with(&DATABASE));
        let second = read.pages.get(2).ok_or("page 2")?;
        assert_eq!(rt; second.bytes(), [0x22; 512].as_slice());
        assert!(rt; read.pages.get(3).is_none());
        let written = written_again(rt.alloc(), &file).ok_or("it is a file")?;
        assert_eq!(rt; written.as_slice(), file.as_slice());
    }
    Ok(())
}

#[test]
fn a_file_of_each_page_size(rt: HostRuntime) -> Result<(), Fail> {
    for size in [512u32, 1024, 2048, 4096, 8192, 16384, 32768, 65536] {
        let mut bytes = Vec::from_slice(rt.alloc(), &START[..8])?;
        bytes.extend_from_slice(&size.to_be_bytes())?;
        bytes.extend_from_slice(&[0, 0, 0, 1])?;
        bytes.extend_from_slice(&START[16..])?;
        bytes.extend_from_slice(&REST)?;
        bytes.extend_from_slice(&[0, 0, 0, 1, 0, 0])?;
        bytes.extend_from_slice(&vec![in rt.alloc(); 7u8; size as usize]?)?;
        bytes.extend_from_slice(&[0; 14])?;
        let file = summed(rt.alloc(), &bytes)?;
        let read = decode(rt.alloc(), &file).ok().ok_or("it is a file")?;
        assert_eq!(rt; read.header.size.get(), size);
        let written = written_again(rt.alloc(), &file).ok_or("it is a file")?;
        assert_eq!(rt; written.as_slice(), file.as_slice());
    }
    Ok(())
}

/// Where a byte of the file of two pages is changed, with or without the index, to what, and the first fault
/// then.
const CHANGES: [(bool, usize, u8, LtxFault); 36] = [
    (false, 0, 0, LtxFault::BadMagic),
    (false, 7, 1, LtxFault::Compressed),
    (false, 7, 7, LtxFault::Compressed),
    (false, 7, 0, LtxFault::BadFlags),
    (false, 7, 4, LtxFault::BadFlags),
    (false, 11, 1, LtxFault::BadPageSize),
    (false, 15, 0, LtxFault::BadCommit),
    // 2^31 + 2 pages of 512 bytes
    (false, 12, 128, LtxFault::BadCommit),
    (false, 15, 3, LtxFault::BadOrder(0)),
    (false, 23, 0, LtxFault::BadRange),
    (false, 23, 2, LtxFault::BadRange),
    // pre-apply checksum, the log's offset and length, node, sum of the place, free bytes
    (false, 47, 1, LtxFault::BadReserved),
    (false, 55, 1, LtxFault::BadReserved),
    (false, 63, 1, LtxFault::BadReserved),
    (false, 79, 1, LtxFault::BadReserved),
    (false, 80, 0, LtxFault::BadReserved),
    (false, 99, 1, LtxFault::BadReserved),
    // numbers and flags of the blocks
    (false, 103, 0, LtxFault::BadOrder(0)),
    (false, 105, 1, LtxFault::Compressed),
    (false, 105, 2, LtxFault::BadFlags),
    (false, 621, 1, LtxFault::BadOrder(1)),
    (false, 621, 3, LtxFault::BadOrder(3)),
    (false, 1141, 1, LtxFault::Compressed),
    // the flags tell of an index that isn't there, or don't tell of the one that is
    (false, 7, 6, LtxFault::BadIndex(0)),
    (true, 7, 2, LtxFault::BadReserved),
    // both numbers of the index, and its count
    (true, 1145, 0, LtxFault::BadIndex(0)),
    (true, 1145, 2, LtxFault::BadIndex(2)),
    (true, 1149, 1, LtxFault::BadIndex(1)),
    (true, 1153, 1, LtxFault::BadIndex(0)),
    (true, 1153, 3, LtxFault::BadIndex(0)),
    // post-apply checksum, a byte of a page, the sum
    (false, 1142, 1, LtxFault::BadReserved),
    (true, 1154, 1, LtxFault::BadReserved),
    (
        false,
        200,
        0x12,
        LtxFault::BadSum {
            kept: 0xf856_1898_5aa5_0591,
            found: 0xcf19_a355_7f75_3b26,
        },
    ),
    (
        false,
        1157,
        0x90,
        LtxFault::BadSum {
            kept: 0xf856_1898_5aa5_0590,
            found: 0xf856_1898_5aa5_0591,
        },
    ),
    (
        true,
        200,
        0x12,
        LtxFault::BadSum {
            kept: 0xecc7_aa29_5f55_37d2,
            found: 0xd9d1_0bf7_0520_5d3c,
        },
    ),
    (
        true,
        1169,
        0xd3,
        LtxFault::BadSum {
            kept: 0xecc7_aa29_5f55_37d3,
            found: 0xecc7_aa29_5f55_37d2,
        },
    ),
];

/// What is wrong with the bytes.
fn fault_of(alloc: Global, bytes: &[u8]) -> Option<LtxFault> {
    match decode(alloc, bytes) {
        Err(DecodeFault::Fault(fault)) => Some(fault),
        _ => None,
    }
}

#[test]
fn a_changed_byte_is_told(rt: HostRuntime) -> Result<(), Fail> {
    for (indexed, at, byte, fault) in CHANGES {
        let index = if indexed { &INDEX[..] } else { &INDEX[..0] };
        let mut file = two_pages(rt.alloc(), &REST, index)?;
        if let Some(changed) = file.get_mut(at) {
            *changed = byte;
        }
        assert_eq!(rt; fault_of(rt.alloc(), &file), Some(fault), "at {at}");
    }
    Ok(())
}

#[test]
fn another_length_is_told(rt: HostRuntime) -> Result<(), Fail> {
    let mut file = two_pages(rt.alloc(), &REST, &INDEX)?;
    // within the header, a block, its page, the end, both numbers of the index, its count, and the trailer
    for length in [0, 99, 105, 700, 1141, 1145, 1149, 1153, 1161, 1169] {
        let front = file.get(..length).ok_or("the front")?;
        assert_eq!(rt;
            fault_of(rt.alloc(), front),
            Some(LtxFault::Short),
            "of {length}"
        );
    }
    let short = file.get(..99).ok_or("99 bytes")?;
    assert_eq!(rt; read_ltx_header(short).err(), Some(LtxFault::Short));
    let front = file.get(..100).ok_or("100 bytes")?;
    assert_eq!(rt;
        read_ltx_header(front).ok().map(|header| header.commit),
        Some(2)
    );
    file.push(0)?;
    assert_eq!(rt; fault_of(rt.alloc(), &file), Some(LtxFault::Extra));
    Ok(())
}

#[test]
fn a_file_with_one_page_in_its_index(rt: HostRuntime) -> Result<(), Fail> {
    // transactions 2 and 3, and page 2 alone
    let mut bytes = Vec::from_slice(rt.alloc(), &START[..7])?;
    bytes.push(6)?;
    bytes.extend_from_slice(&START[8..16])?;
    bytes.extend_from_slice(&[0, 0, 0, 0, 0, 0, 0, 2, 0, 0, 0, 0, 0, 0, 0, 3])?;
    bytes.extend_from_slice(&START[32..])?;
    bytes.extend_from_slice(&WAL)?;
    bytes.extend_from_slice(&[0, 0, 0, 2, 0, 0])?;
    bytes.extend_from_slice(&[0x33; 512])?;
    bytes.extend_from_slice(&[0, 0, 0, 0, 0, 0, 0, 0, 0, 2, 0, 0, 0, 1])?;
    bytes.extend_from_slice(&[0; 8])?;
    let mut file = summed(rt.alloc(), &bytes)?;
    assert_eq!(rt; file.len(), 648);
    let sum = 0xd22b_5e17_36ef_7703_u64.to_be_bytes();
    assert_eq!(rt; file.get(640..), Some(sum.as_slice()));
    let written = written_again(rt.alloc(), &file).ok_or("it is a file")?;
    assert_eq!(rt; written.as_slice(), file.as_slice());
    for (at, byte, fault) in [
        (631, 2, LtxFault::BadIndex(0)),
        (627, 3, LtxFault::BadIndex(3)),
    ] {
        if let Some(changed) = file.get_mut(at) {
            *changed = byte;
        }
        assert_eq!(rt; fault_of(rt.alloc(), &file), Some(fault), "at {at}");
    }
    Ok(())
}

/// Numbers of pages of 65536 bytes, the number of the one page that the file holds, and its first fault. The
/// lock page has number 16385.
const LOCKED: [(u32, u32, Option<LtxFault>); 6] = [
    (16400, 16384, None),
    (16400, 16385, Some(LtxFault::BadOrder(16385))),
    (16400, 16386, None),
    (16385, 16385, Some(LtxFault::BadOrder(16385))),
    (1 << 24, 1 << 24, None),
    ((1 << 24) + 1, 1, Some(LtxFault::BadCommit)),
];

#[test]
fn the_lock_page_is_never_stored(rt: HostRuntime) -> Result<(), Fail> {
    for (commit, number, fault) in LOCKED {
        let mut bytes = Vec::from_slice(rt.alloc(), &START[..8])?;
        bytes.extend_from_slice(&65536u32.to_be_bytes())?;
        bytes.extend_from_slice(&commit.to_be_bytes())?;
        bytes.extend_from_slice(&[0, 0, 0, 0, 0, 0, 0, 2, 0, 0, 0, 0, 0, 0, 0, 2])?;
        bytes.extend_from_slice(&START[32..])?;
        bytes.extend_from_slice(&REST)?;
        bytes.extend_from_slice(&number.to_be_bytes())?;
        bytes.extend_from_slice(&[0; 2])?;
        bytes.extend_from_slice(&vec![in rt.alloc(); 5u8; 65536]?)?;
        bytes.extend_from_slice(&[0; 14])?;
        let file = summed(rt.alloc(), &bytes)?;
        assert_eq!(rt; fault_of(rt.alloc(), &file), fault, "of {commit} pages");
    }
    Ok(())
}
