//! The bytes of files that the tests read.

use ls_sums::Crc64;
use std::alloc::{AllocError, Global};

/// The first 48 bytes of a file of two pages of 512 bytes, transaction 1 alone, its moment
/// 1700000000000.
const START: [u8; 48] = [
    0x4c, 0x54, 0x58, 0x31, 0, 0, 0, 2, 0, 0, 2, 0, 0, 0, 0, 2, 0, 0, 0, 0, 0, 0, 0, 1, 0, 0, 0, 0,
    0, 0, 0, 1, 0, 0, 1, 0x8b, 0xcf, 0xe5, 0x68, 0, 0, 0, 0, 0, 0, 0, 0, 0,
];

/// The other 52, of a place at rest with sum 2^63.
pub(crate) const REST: [u8; 52] = [
    0, 0, 0, 0, 0, 0, 0, 0, 0, 0, 0, 0, 0, 0, 0, 0, 0, 0, 0, 0, 0, 0, 0, 0, 0, 0, 0, 0, 0, 0, 0, 0,
    0x80, 0, 0, 0, 0, 0, 0, 0, 0, 0, 0, 0, 0, 0, 0, 0, 0, 0, 0, 0,
];

/// The first 20 bytes of a database of pages of 512 bytes.
const DATABASE: [u8; 20] = *b"SQLite format 3\0\x02\0\x02\x02";

/// The index of a file of pages 1 and 2.
pub(crate) const INDEX: [u8; 12] = [0, 0, 0, 1, 0, 0, 0, 2, 0, 0, 0, 2];

/// The bytes, and their sum behind them.
fn summed(alloc: Global, bytes: &[u8]) -> Result<Vec<u8>, AllocError> {
    let mut file = Vec::from_slice(alloc, bytes)?;
    let mut check = Crc64::new();
    check.over(bytes);
    let sum = check.finish() | 1 << 63;
    file.extend_from_slice(&sum.to_be_bytes())?;
    Ok(file)
}

/// The file of two pages, with this index where it isn't empty.
pub(crate) fn two_pages(alloc: Global, place: &[u8], index: &[u8]) -> Result<Vec<u8>, AllocError> {
    let mut file = Vec::from_slice(alloc, &START[..7])?;
    file.push(if index.is_empty() { 2 } else { 6 })?;
    file.extend_from_slice(&START[8..])?;
    file.extend_from_slice(place)?;
    file.extend_from_slice(&[0, 0, 0, 1, 0, 0])?;
    file.extend_from_slice(&DATABASE)?;
    file.extend_from_slice(&[0; 80])?;
    file.extend_from_slice(&[0x11; 412])?;
    file.extend_from_slice(&[0, 0, 0, 2, 0, 0])?;
    file.extend_from_slice(&[0x22; 512])?;
    file.extend_from_slice(&[0; 6])?;
    file.extend_from_slice(index)?;
    file.extend_from_slice(&[0; 8])?;
    summed(alloc, &file)
}

/// A file of transaction 2 without pages.
pub(crate) fn no_page(alloc: Global) -> Result<Vec<u8>, AllocError> {
    let mut bytes = Vec::from_slice(alloc, &START[..23])?;
    bytes.extend_from_slice(&[2, 0, 0, 0, 0, 0, 0, 0, 2])?;
    bytes.extend_from_slice(&START[32..])?;
    bytes.extend_from_slice(&REST)?;
    bytes.extend_from_slice(&[0; 14])?;
    summed(alloc, &bytes)
}

/// A file of one page of 65536 bytes.
pub(crate) fn large_page(alloc: Global) -> Result<Vec<u8>, AllocError> {
    let mut bytes = Vec::from_slice(alloc, &START[..8])?;
    bytes.extend_from_slice(&[0, 1, 0, 0, 0, 0, 0, 1])?;
    bytes.extend_from_slice(&START[16..])?;
    bytes.extend_from_slice(&REST)?;
    bytes.extend_from_slice(&[0, 0, 0, 1, 0, 0])?;
    bytes.extend_from_slice(&vec![in alloc; 7u8; 65536]?)?;
    bytes.extend_from_slice(&[0; 14])?;
    summed(alloc, &bytes)
}
