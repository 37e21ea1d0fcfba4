ghost use Rattle.std.specs.Prelude.{◌≡◌, ◌<◌, length};
ghost use Rattle.std.specs.Bool.{OnTrue};
ghost use Rattle.ltx_format.specs.LtxFormat.{IsStored};

use crate::{IndexWriter, LtxHeader, LtxWriter, decode, encode, read_ltx_header};
use std::alloc::{AllocError, Global};
use std::test::*;

/// The header of a file of two pages of 512 bytes at rest: transaction 1, moment 1700000000000.
const TWO_PAGES: [u8; 100] = [
    0x4c, 0x54, 0x58, 0x31, 0, 0, 0, 2, 0, 0, 2, 0, 0, 0, 0, 2, 0, 0, 0, 0, 0, 0, 0, 1, 0, 0, 0, 0,
    0, 0, 0, 1, 0, 0, 1, 0x8b, 0xcf, 0xe5, 0x68, 0, 0, 0, 0, 0, 0, 0, 0, 0, 0, 0, 0, 0, 0, 0, 0, 0,
    0, 0, 0, 0, 0, 0, 0, 0, 0, 0, 0, 0, 0, 0, 0, 0, 0, 0, 0, 0, 0, 0, 0, 0, 0x80, 0, 0, 0, 0, 0, 0,
    0, 0, 0, 0, 0, 0, 0, 0, 0, 0, 0, 0, 0,
];

/// The same of transaction 2, a second later.
const NO_PAGE: [u8; 100] = [
    0x4c, 0x54, 0x58, 0x31, 0, 0, 0, 2, 0, 0, 2, 0, 0, 0, 0, 2, 0, 0, 0, 0, 0, 0, 0, 2, 0, 0, 0, 0,
    0, 0, 0, 2, 0, 0, 1, 0x8b, 0xcf, 0xe5, 0x6b, 0xe8, 0, 0, 0, 0, 0, 0, 0, 0, 0, 0, 0, 0, 0, 0, 0,
    0, 0, 0, 0, 0, 0, 0, 0, 0, 0, 0, 0, 0, 0, 0, 0, 0, 0, 0, 0, 0, 0, 0, 0, 0, 0x80, 0, 0, 0, 0, 0,
    0, 0, 0, 0, 0, 0, 0, 0, 0, 0, 0, 0, 0, 0,
];

/// The header of a file of one page of 65536 bytes, transaction 1.
const LARGE_PAGE: [u8; 100] = [
    0x4c, 0x54, 0x58, 0x31, 0, 0, 0, 2, 0, 1, 0, 0, 0, 0, 0, 1, 0, 0, 0, 0, 0, 0, 0, 1, 0, 0, 0, 0,
    0, 0, 0, 1, 0, 0, 1, 0x8b, 0xcf, 0xe5, 0x68, 0, 0, 0, 0, 0, 0, 0, 0, 0, 0, 0, 0, 0, 0, 0, 0, 0,
    0, 0, 0, 0, 0, 0, 0, 0, 0, 0, 0, 0, 0, 0, 0, 0, 0, 0, 0, 0, 0, 0, 0, 0, 0x80, 0, 0, 0, 0, 0, 0,
    0, 0, 0, 0, 0, 0, 0, 0, 0, 0, 0, 0, 0,
];

/// The header of a file with an index, transactions 2 and 3, of a place in the log: end 1640, salts 1 and 2.
const INDEXED: [u8; 100] = [
    0x4c, 0x54, 0x58, 0x31, 0, 0, 0, 6, 0, 0, 2, 0, 0, 0, 0, 2, 0, 0, 0, 0, 0, 0, 0, 2, 0, 0, 0, 0,
    0, 0, 0, 3, 0, 0, 1, 0x8b, 0xcf, 0xe5, 0x6f, 0xd0, 0, 0, 0, 0, 0, 0, 0, 0, 0, 0, 0, 0, 0, 0, 0,
    0x20, 0, 0, 0, 0, 0, 0, 6, 0x48, 0, 0, 0, 1, 0, 0, 0, 2, 0, 0, 0, 0, 0, 0, 0, 0, 1, 2, 3, 4, 5,
    6, 7, 8, 0, 0, 0, 0, 0, 0, 0, 0, 0, 0, 0, 0,
];

/// The first 20 bytes of a database of pages of 512 bytes.
const DATABASE: [u8; 20] = *b"SQLite format 3\0\x02\0\x02\x02";

/// Whether the page may come next.
fn may_come(header: &LtxHeader, last: u32, number: u32, page: &[u8]) -> bool
    ensures rises { OnTrue result (last < number) }
    ensures stored { OnTrue result (IsStored header.now number) }
    ensures sized { OnTrue result (length page.now ≡ header.now.size) }
{
    last < number
        && number <= header.commit
        && number != header.size.lock_page()
        && page.len() == header.size.get() as usize
}

/// The file of this header and these pages, written page by page.
fn written(alloc: Global, head: &[u8], pages: &[(u32, &[u8])]) -> Result<Vec<u8>, Fail> {
    let header = read_ltx_header(head).ok().ok_or("a header")?;
    if header.index {
        return Err("no index".into());
    }
    let mut into = [0; 100];
    let mut writer = LtxWriter::begin(&header, &mut into);
    let mut file = Vec::from_slice(alloc, &into)?;
    let mut last = 0;
    for (number, page) in pages {
        let mut front = [0; 6];
        if !may_come(&header, last, *number, page) {
            return Err("the next page".into());
        }
        writer.page(*number, page, &mut front);
        file.extend_from_slice(&front)?;
        file.extend_from_slice(page)?;
        last = *number;
    }
    file.extend_from_slice(&writer.finish())?;
    Ok(file)
}

/// What `encode` makes of the file that the bytes are.
fn encoded(alloc: Global, bytes: &[u8]) -> Result<Vec<u8>, Fail> {
    let file = decode(alloc, bytes).ok().ok_or("a file")?;
    let bytes = encode(alloc, &file).ok().ok_or("memory")?;
    Ok(bytes.into_vec())
}

/// The parts, one after the other.
fn joined(alloc: Global, parts: &[&[u8]]) -> Result<Vec<u8>, AllocError> {
    let mut bytes = Vec::new(alloc);
    for part in parts {
        bytes.extend_from_slice(part)?;
    }
    Ok(bytes)
}

#[test]
fn a_file_of_two_pages(rt: HostRuntime) -> Result<(), Fail> {
    let first = joined(rt.alloc(), &[&DATABASE, &[0; 80], &[0x11; 412]])?;
    let file = written(rt.alloc(), &TWO_PAGES, &[(1, &first), (2, &[0x22; 512])])?;
    let blocks = joined(
        rt.alloc(),
        &[
            &[0, 0, 0, 1, 0, 0],
            &first,
            &[0, 0, 0, 2, 0, 0],
            &[0x22; 512],
        ],
    )?;
    let sum = 0xf856_1898_5aa5_0591u64.to_be_bytes();
    let bytes = joined(rt.alloc(), &[&TWO_PAGES, &blocks, &[0; 14], &sum])?;
    assert_eq!(rt; file.len(), 1158);
    assert_eq!(rt; file.as_slice(), bytes.as_slice());
    assert_eq!(rt; encoded(rt.alloc(), &file)?.as_slice(), file.as_slice());
    Ok(())
}

#[test]
fn a_file_of_no_page(rt: HostRuntime) -> Result<(), Fail> {
    let file = written(rt.alloc(), &NO_PAGE, &[])?;
    let sum = 0xe8f3_9c0a_1463_c0ceu64.to_be_bytes();
    let bytes = joined(rt.alloc(), &[&NO_PAGE, &[0; 14], &sum])?;
    assert_eq!(rt; file.as_slice(), bytes.as_slice());
    assert_eq!(rt; encoded(rt.alloc(), &file)?.as_slice(), file.as_slice());
    Ok(())
}

#[test]
fn a_file_of_a_large_page(rt: HostRuntime) -> Result<(), Fail> {
    let page = vec![in rt.alloc(); 7u8; 65536]?;
    let file = written(rt.alloc(), &LARGE_PAGE, &[(1, &page)])?;
    let sum = 0xfdaf_d701_ec91_44b0u64.to_be_bytes();
    let bytes = joined(
        rt.alloc(),
        &[&LARGE_PAGE, &[0, 0, 0, 1, 0, 0], &page, &[0; 14], &sum],
    )?;
    assert_eq!(rt; file.as_slice(), bytes.as_slice());
    assert_eq!(rt; encoded(rt.alloc(), &file)?.as_slice(), file.as_slice());
    Ok(())
}

/// What ends the file with an index and page 2 alone: the end of its blocks, the index, and the trailer.
const INDEX_TAIL: [u8; 30] = [
    0, 0, 0, 0, 0, 0, 0, 0, 0, 2, 0, 0, 0, 1, 0, 0, 0, 0, 0, 0, 0, 0, 0x81, 0x3d, 0x33, 0x41, 0x8c,
    0xf5, 0x26, 0xd5,
];

#[test]
fn a_file_with_an_index(rt: HostRuntime) -> Result<(), Fail> {
    let header = read_ltx_header(&INDEXED).ok().ok_or("a header")?;
    let page = [0x44; 512];
    assert!(rt; header.index && may_come(&header, 0, 2, &page));
    let mut head = [0; 100];
    let mut writer = IndexWriter::begin(rt.alloc(), &header, &mut head);
    let mut front = [0; 6];
    writer.page(2, &page, &mut front).ok().ok_or("memory")?;
    let tail = writer.finish().ok().ok_or("memory")?;
    assert_eq!(rt; head, INDEXED);
    assert_eq!(rt; front, [0, 0, 0, 2, 0, 0]);
    assert_eq!(rt; tail.as_slice(), INDEX_TAIL.as_slice());
    let file = joined(rt.alloc(), &[&head, &front, &page, tail.as_slice()])?;
    assert_eq!(rt; file.len(), 648);
    assert_eq!(rt; encoded(rt.alloc(), &file)?.as_slice(), file.as_slice());
    Ok(())
}
