//! Pages of three files of a plan, given by their numbers from a disk in memory.

ghost use Rattle.std.specs.Prelude.{◌≡◌, ◌≢◌, ◌<◌, [], IfOk};
ghost use Rattle.page_cursors.specs.Cursors.{AreReady};

use super::*;
use crash_disk::MemDisk;
use ls_base::Steps;
use ls_sums::Crc64;
use ltx_format::LtxFault;
use replica_store::{Damage, FileName, read_name};
use std::alloc::{AllocError, Global};
use std::marker::Brand;
use std::sync::ledger::{Blank, Ledger};
use std::test::*;

const FIRST: &str = "ltx/0/0000000000000001-0000000000000001.ltx";

const SECOND: &str = "ltx/0/0000000000000002-0000000000000002.ltx";

const THIRD: &str = "ltx/0/0000000000000003-0000000000000003.ltx";

/// The first 20 bytes of a database of pages of 512 bytes.
const DATABASE: [u8; 20] = *b"SQLite format 3\0\x02\0\x02\x02";

/// A file: how many pages it leaves, their numbers (0 is none), the byte that fills them, and whether it has an
/// index.
struct Row(u8, [u8; 3], u8, bool);

/// The block of the page of this number, with an end of this byte.
fn put_block(bytes: &mut Vec<u8>, number: u8, fill: u8) -> Result<(), AllocError> {
    bytes.extend_from_slice(&[0, 0, 0, number, 0, 0])?;
    if number == 1 {
        bytes.extend_from_slice(&DATABASE)?;
        bytes.extend_from_slice(&[0; 80])?;
    } else {
        bytes.extend_from_slice(&[fill; 100])?;
    }
    bytes.extend_from_slice(&[fill; 412])
}

/// The bytes of the file of this transaction alone.
fn file(alloc: Global, txid: u8, row: &Row) -> Result<Vec<u8>, AllocError> {
    let mut bytes = Vec::from_slice(alloc, b"LTX1\0\0\0")?;
    bytes.push(if row.3 { 6 } else { 2 })?;
    bytes.extend_from_slice(&[0, 0, 2, 0, 0, 0, 0, row.0])?;
    bytes.extend_from_slice(&[0, 0, 0, 0, 0, 0, 0, txid])?;
    bytes.extend_from_slice(&[0, 0, 0, 0, 0, 0, 0, txid])?;
    bytes.extend_from_slice(&[0, 0, 1, 0x8b, 0xcf, 0xe5, 0x68, 0])?;
    bytes.extend_from_slice(&[0; 40])?;
    bytes.push(0x80)?;
    bytes.extend_from_slice(&[0; 19])?;
    let mut index = Vec::new(alloc);
    let mut count = 0u8;
    for number in row.1 {
        if number != 0 {
            put_block(&mut bytes, number, row.2)?;
            index.extend_from_slice(&[0, 0, 0, number])?;
            count = count.wrapping_add(1);
        }
    }
    bytes.extend_from_slice(&[0; 6])?;
    if row.3 {
        bytes.extend_from_slice(&index)?;
        bytes.extend_from_slice(&[0, 0, 0, count])?;
    }
    bytes.extend_from_slice(&[0; 8])?;
    let mut check = Crc64::new();
    check.over(&bytes);
    let sum = check.finish() | 1 << 63;
    bytes.extend_from_slice(&sum.to_be_bytes())?;
    Ok(bytes)
}

/// The next page's number and last byte.
fn turn<L: Ledger>(
    cursors: &mut Cursors,
    disk: &mut MemDisk,
    steps: &mut Steps<L>,
) -> Result<Option<(u32, u8)>, CursorsFault>
    requires { AreReady cursors.old }
    ensures { IfOk result (λ _. AreReady cursors.new) }
{
    let Some(number) = cursors.next(disk, steps)? else {
        return Ok(None);
    };
    let last = match cursors.page.get(511) {
        Some(byte) => *byte,
        None => 0,
    };
    Ok(Some((number, last)))
}

/// The first five answers.
fn turns<L: Ledger>(
    alloc: Global,
    disk: &mut MemDisk,
    plan: &[FileName],
    blank: Blank,
) -> Result<[Option<(u32, u8)>; 5], CursorsFault>
    requires some_files { plan.now ≢ [] }
    requires name { blank.name ≡ L.name }
    requires parts { blank.parts ≡ L.parts }
    requires some { 0 < blank.parts }
{
    let mut steps = Steps::<L>::new(blank);
    let mut cursors = Cursors::begin(alloc, disk, plan, &mut steps)?;
    let first = turn(&mut cursors, disk, &mut steps)?;
    let second = turn(&mut cursors, disk, &mut steps)?;
    let third = turn(&mut cursors, disk, &mut steps)?;
    let fourth = turn(&mut cursors, disk, &mut steps)?;
    let fifth = turn(&mut cursors, disk, &mut steps)?;
    Ok([first, second, third, fourth, fifth])
}

/// The second file of each row, and what is given: a file that grows the database, one with an index, one that
/// lacks page 4, and one whose block is changed.
const ROWS: [(Row, u8, Option<[Option<(u32, u8)>; 5]>); 4] = [
    (
        Row(4, [2, 4, 0], 2, false),
        0,
        Some([Some((1, 3)), Some((2, 2)), Some((3, 1)), Some((4, 2)), None]),
    ),
    (
        Row(4, [2, 4, 0], 2, true),
        0,
        Some([Some((1, 3)), Some((2, 2)), Some((3, 1)), Some((4, 2)), None]),
    ),
    (Row(5, [2, 5, 0], 2, false), 0, None),
    (Row(4, [2, 4, 0], 2, false), 1, None),
];

#[test]
fn each_page_comes_from_the_last_file_that_has_it(rt: HostRuntime) -> Result<(), Fail> {
    let first = read_name(FIRST).ok_or("a name")?;
    let second = read_name(SECOND).ok_or("a name")?;
    let third = read_name(THIRD).ok_or("a name")?;
    let plan = [first, second, third];
    for (row, flag, wanted) in &ROWS {
        let mut disk = MemDisk::new(rt.alloc());
        disk.put_file(FIRST, &file(rt.alloc(), 1, &Row(3, [1, 2, 3], 1, false))?)?;
        let mut bytes = file(rt.alloc(), 2, row)?;
        if let Some(byte) = bytes.get_mut(105) {
            *byte = *flag;
        }
        disk.put_file(SECOND, &bytes)?;
        disk.put_file(THIRD, &file(rt.alloc(), 3, &Row(2, [1, 0, 0], 3, false))?)?;
        let found = turns::<Brand>(rt.alloc(), &mut disk, &plan, Blank::new(1));
        let fault = if *flag == 1 {
            CursorsFault::Damaged(second, Damage::File(LtxFault::Compressed))
        } else {
            CursorsFault::PageMissing(second, 4)
        };
        assert_eq!(rt; found, wanted.ok_or(fault));
    }
    Ok(())
}
