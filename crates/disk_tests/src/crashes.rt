//! Lists of calls, crashed by each choice.

use crate::content::{reads, reads_any};
use crate::crash_rows::{ROWS, Row};
use crate::step::run;
use crash_disk::{Disk, MemDisk};
use std::alloc::Global;
use std::process::Abort;
use std::test::Fail;

/// The disk after the list of calls and a crash by the choice. A synced file "a" was there before.
fn crashed(alloc: Global, row: &Row, choice: u64) -> Result<MemDisk, Fail> {
    let mut disk = MemDisk::new(alloc);
    disk.put_file("a", b"old")?;
    for step in row.steps {
        run(&mut disk, alloc, step)?;
    }
    disk.crash(choice)?;
    Ok(disk)
}

/// Whether the choice leaves at the row's name what the row says.
fn is_as_told(disk: &mut MemDisk, row: &Row, choice: u64) -> Result<bool, Fail> {
    Ok(match choice {
        0 => reads(disk, row.name, row.at_none)?,
        1 => reads(disk, row.name, row.at_all)?,
        2 => reads(disk, row.name, row.at_names)?,
        _ => reads_any(disk, row.name, row.at_others)?,
    })
}

fn check(rt: &impl Abort, alloc: Global, number: usize, row: &Row) -> Result<(), Fail> {
    for choice in 0..8 {
        let mut disk = crashed(alloc, row, choice)?;
        assert!(rt;
            is_as_told(&mut disk, row, choice)?,
            "row {number}, choice {choice}"
        );
        disk.crash(0)?;
        assert!(rt;
            is_as_told(&mut disk, row, choice)?,
            "row {number}, choice {choice} again"
        );
    }
    Ok(())
}

#[test]
fn a_crash_leaves_what_its_choice_takes(rt: HostRuntime) -> Result<(), Fail> {
    for (number, row) in ROWS.iter().enumerate() {
        check(&rt, rt.alloc(), number, row)?;
    }
    Ok(())
}

/// The bytes that a crash by the choice leaves of a synced file to which two were appended, and then two more.
fn left_of_appended(alloc: Global, choice: u64, into: &mut [u8]) -> Result<usize, Fail> {
    let mut disk = MemDisk::new(alloc);
    disk.put_file("a", b"old")?;
    disk.append("a", b"er")?;
    disk.append("a", b"!!")?;
    disk.crash(choice)?;
    Ok(disk.read_at("a", 0, into)?)
}

#[test]
fn choices_from_3_on_leave_stray_bytes_and_earlier_lengths(rt: HostRuntime) -> Result<(), Fail> {
    let mut stray = false;
    let mut earlier = false;
    for choice in 3..8 {
        let mut into = *b"old....";
        let count = left_of_appended(rt.alloc(), choice, &mut into)?;
        stray |= count == 7 && &into != b"older!!";
        earlier |= count == 5 && &into[..5] == b"older".as_slice();
    }
    assert!(rt; stray);
    assert!(rt; earlier);
    Ok(())
}

/// Whether a crash by the choice leaves one of two new files and not the other.
fn parts_two_names(alloc: Global, choice: u64) -> Result<bool, Fail> {
    let mut disk = MemDisk::new(alloc);
    disk.create("a")?;
    disk.create("b")?;
    disk.crash(choice)?;
    Ok(disk.size("a")?.is_some() != disk.size("b")?.is_some())
}

#[test]
fn a_choice_from_3_on_chooses_name_by_name(rt: HostRuntime) -> Result<(), Fail> {
    let mut parted = false;
    for choice in 3..8 {
        parted |= parts_two_names(rt.alloc(), choice)?;
    }
    assert!(rt; parted);
    Ok(())
}
