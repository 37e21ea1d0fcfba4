//! A database of two pages and its log, with pages of 512 bytes.

use std::alloc::{AllocError, Global};

/// A frame of the log: its page's number, its commit's size or 0, the byte that its page is filled with, and the running
/// sums up to it, as a program in another language computed them.
#[derive(Clone, Copy)]
pub struct Frame {
    pub number: u32,
    pub commit: u32,
    pub fill: u8,
    pub sums: u64,
}

/// The numbers, of 8 bytes each.
pub fn push_words(bytes: &mut Vec<u8>, words: &[u64]) -> Result<(), AllocError> {
    for word in words {
        bytes.extend_from_slice(&word.to_be_bytes())?;
    }
    Ok(())
}

/// A page filled with the byte. The first begins with the header of a database in WAL mode.
pub fn push_page(bytes: &mut Vec<u8>, number: u32, fill: u8) -> Result<(), AllocError> {
    if number != 1 {
        bytes.extend_from_slice(&[fill; 512])?;
        return Ok(());
    }
    bytes.extend_from_slice(b"SQLite format 3\0\x02\0\x02\x02")?;
    bytes.extend_from_slice(&[0; 80])?;
    bytes.extend_from_slice(&[fill; 412])?;
    Ok(())
}

/// The database file: its first page alone.
pub fn database(alloc: Global) -> Result<Vec<u8>, AllocError> {
    let mut bytes = Vec::new(alloc);
    push_page(&mut bytes, 1, 0)?;
    Ok(bytes)
}

/// So many of the frames, in a log with the salts 1 and 2.
pub fn push_frames(bytes: &mut Vec<u8>, frames: &[Frame], count: usize) -> Result<(), AllocError> {
    for (at, frame) in frames.iter().enumerate() {
        if at < count {
            bytes.extend_from_slice(&frame.number.to_be_bytes())?;
            bytes.extend_from_slice(&frame.commit.to_be_bytes())?;
            push_words(bytes, &[0x0000_0001_0000_0002, frame.sums])?;
            push_page(bytes, frame.number, frame.fill)?;
        }
    }
    Ok(())
}

/// A log of so many of the frames, which lacks so many bytes at its end.
pub fn log_of(
    alloc: Global,
    frames: &[Frame],
    count: usize,
    lacks: usize,
) -> Result<Vec<u8>, AllocError> {
    let mut bytes = Vec::new(alloc);
    push_words(
        &mut bytes,
        &[
            0x377f_0683_002d_e218,
            0x0000_0200_0000_0000,
            0x0000_0001_0000_0002,
            0x1604_cad8_bcdd_a493,
        ],
    )?;
    push_frames(&mut bytes, frames, count)?;
    bytes.truncate(bytes.len().saturating_sub(lacks));
    Ok(bytes)
}
