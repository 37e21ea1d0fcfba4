//! Files of a replica. A database has two pages of 512 bytes, and each page is one byte again and again.

use ls_sums::Crc64;
use std::alloc::{AllocError, Global};

/// A transaction file.
#[derive(Clone, Copy)]
pub struct Made {
    pub path: &'static str,
    pub min: u64,
    pub max: u64,
    /// In milliseconds since 1970-01-01T00:00:00Z.
    pub moment: u64,
    /// The byte of page 1, where the file has that page.
    pub first: Option<u8>,
    /// The byte of page 2.
    pub second: u8,
    /// Whether it has an index, as merged files have.
    pub index: bool,
}

/// Puts a page with its number last.
fn put_page(bytes: &mut Vec<u8>, number: u8, fill: u8) -> Result<(), AllocError> {
    bytes.extend_from_slice(&[0, 0, 0, number, 0, 0])?;
    bytes.extend_from_slice(&[fill; 512])
}

/// Puts the numbers of the pages last, and how many there are.
fn put_index(bytes: &mut Vec<u8>, whole: bool) -> Result<(), AllocError> {
    if whole {
        return bytes.extend_from_slice(&[0, 0, 0, 1, 0, 0, 0, 2, 0, 0, 0, 2]);
    }
    bytes.extend_from_slice(&[0, 0, 0, 2, 0, 0, 0, 1])
}

/// The bytes of the file.
pub fn bytes_of(alloc: Global, made: &Made) -> Result<Vec<u8>, AllocError> {
    let mut bytes = Vec::from_slice(alloc, b"LTX1\0\0\0")?;
    bytes.push(if made.index { 6 } else { 2 })?;
    bytes.extend_from_slice(&[0, 0, 2, 0, 0, 0, 0, 2])?;
    bytes.extend_from_slice(&made.min.to_be_bytes())?;
    bytes.extend_from_slice(&made.max.to_be_bytes())?;
    bytes.extend_from_slice(&made.moment.to_be_bytes())?;
    bytes.extend_from_slice(&[0; 40])?;
    bytes.push(0x80)?;
    bytes.extend_from_slice(&[0; 19])?;
    if let Some(fill) = made.first {
        put_page(&mut bytes, 1, fill)?;
    }
    put_page(&mut bytes, 2, made.second)?;
    bytes.extend_from_slice(&[0; 6])?;
    if made.index {
        put_index(&mut bytes, made.first.is_some())?;
    }
    bytes.extend_from_slice(&[0; 8])?;
    let mut check = Crc64::new();
    check.over(&bytes);
    let sum = check.finish() | 1 << 63;
    bytes.extend_from_slice(&sum.to_be_bytes())?;
    Ok(bytes)
}
