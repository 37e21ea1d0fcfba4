//! Pages that are written as an LTX file.

ghost use Rattle.std.specs.Prelude.{◌≡◌, false, Ok, IfOk};
ghost use Rattle.ltx_format.specs.LtxFormat.{IsHeader};

use crate::pages::put_pages;
use crash_disk::{Disk, DiskFault};
use file_disk::FileDisk;
use ltx_format::{LtxHeader, LtxWriter, read_ltx_header};
use std::alloc::Global;
use std::io::{self, ErrorKind};

/// How many bytes are read and written at a time.
const PIECE_BYTES: usize = 1 << 18;
/// The header of the file: pages of 4096 bytes, 262144 of them afterwards, transaction 2, at rest.
const HEAD: [u8; 100] = [
    0x4c, 0x54, 0x58, 0x31, 0, 0, 0, 2, 0, 0, 0x10, 0, 0, 4, 0, 0, 0, 0, 0, 0, 0, 0, 0, 2, 0, 0, 0,
    0, 0, 0, 0, 2, 0, 0, 1, 0x8b, 0xcf, 0xe5, 0x68, 0, 0, 0, 0, 0, 0, 0, 0, 0, 0, 0, 0, 0, 0, 0, 0,
    0, 0, 0, 0, 0, 0, 0, 0, 0, 0, 0, 0, 0, 0, 0, 0, 0, 0, 0, 0, 0, 0, 0, 0, 0, 0x80, 0, 0, 0, 0, 0,
    0, 0, 0, 0, 0, 0, 0, 0, 0, 0, 0, 0, 0, 0,
];

/// Writes the pages of the source as an LTX file, and answers the number of the last one.
pub fn write_file(
    alloc: Global,
    disk: &mut FileDisk,
    source: &str,
    target: &str,
) -> io::Result<u32> {
    let header = plain_header(&HEAD)?;
    done(disk.create(target))?;
    let mut piece = vec![in alloc; 0u8; PIECE_BYTES]?;
    let mut blocks = Vec::new(alloc);
    let mut front = [0; 100];
    let mut writer = LtxWriter::begin(&header, &mut front);
    done(disk.append(target, &front))?;
    let mut last = 0;
    for turn in 0..u32::MAX {
        let at = u64::from(turn) * PIECE_BYTES as u64;
        let count = done(disk.read_at(source, at, &mut piece))?;
        if count == 0 {
            break;
        }
        last = put_pages(&mut writer, &header, last, &piece[..count], &mut blocks)?;
        done(disk.append(target, &blocks))?;
        blocks.clear();
    }
    done(disk.append(target, &writer.finish()))?;
    Ok(last)
}

/// The header that the bytes are, of a file without an index.
fn plain_header(bytes: &[u8]) -> io::Result<LtxHeader>
    ensures header { IfOk result IsHeader }
    ensures plain { IfOk result (λ header. header.index ≡ false) }
{
    match read_ltx_header(bytes) {
        Ok(header) if !header.index => Ok(header),
        _ => Err(ErrorKind::InvalidData.into()),
    }
}

/// The answer of the disk.
fn done<T>(answer: Result<T, DiskFault>) -> io::Result<T>
    ensures { IfOk result (λ value. answer ≡ Ok value) }
{
    answer.map_err(|_| ErrorKind::Other.into())
}
