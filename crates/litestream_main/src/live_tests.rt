//! Real files as a live database: what its calls give and leave.

use crate::file_live::FileLive;
use live_gate::{Attached, Live, Pass};
use ls_base::{PageSize, Place};
use std::fs::{self, File};
use std::io::{self, Read, Write};
use std::test::Fail;

/// A folder with these files, each anew.
fn folder(rt: HostRuntime, path: &str, files: &[(&str, &[u8])]) -> Result<(), Fail> {
    let _ = fs::remove_dir_all(&rt, path);
    fs::create_dir_all(&rt, path)?;
    for (name, bytes) in files {
        File::create(&rt, name)?.write_all(bytes)?;
    }
    Ok(())
}

/// The bytes of the gate file, if it is there.
fn gate(rt: HostRuntime, path: &str) -> Result<Option<[u8; 17]>, io::Error> {
    let mut bytes = [0; 17];
    if !fs::exists(&rt, path)? {
        return Ok(None);
    }
    File::open(&rt, path)?.read_exact(&mut bytes)?;
    Ok(Some(bytes))
}

#[test]
fn the_gate_is_a_file_while_it_is_held(rt: HostRuntime) -> Result<(), Fail> {
    let path = "file_live_gate";
    folder(rt, path, &[("file_live_gate/db", b"abc")])?;
    let mut live = FileLive::new(rt);
    assert_eq!(rt;
        live.attach(rt.alloc(), "file_live_gate/db", false)?,
        Attached::Found
    );
    let file = "file_live_gate/db-litestream-gate";
    assert_eq!(rt; gate(rt, file)?, None);
    live.enter()?;
    assert_eq!(rt; gate(rt, file)?, Some(*b"0000000000000000\n"));
    live.advance(1104)?;
    assert_eq!(rt; gate(rt, file)?, Some(*b"0000000000000450\n"));
    live.leave()?;
    assert_eq!(rt; gate(rt, file)?, None);
    fs::remove_dir_all(&rt, path)?;
    Ok(())
}

/// The real database at the path, with the gate held.
fn entered(rt: HostRuntime, path: &str) -> Result<FileLive, Fail> {
    let mut live = FileLive::new(rt);
    live.attach(rt.alloc(), path, true)?;
    live.enter()?;
    Ok(live)
}

#[test]
fn the_last_page_of_a_real_file_ends_in_zeros(rt: HostRuntime) -> Result<(), Fail> {
    let path = "file_live_pages";
    folder(rt, path, &[("file_live_pages/db", &[7; 700])])?;
    let mut live = entered(rt, "file_live_pages/db")?;
    let mut head = [0; 100];
    assert_eq!(rt; live.db_head(&mut head)?, 100);
    assert_eq!(rt; head, [7; 100]);
    assert_eq!(rt; live.db_size()?, 700);
    let size = PageSize::from_u32(512).ok_or("512 is a page size")?;
    let mut page = [1; 512];
    live.read_page(size, 2, &mut page)?;
    assert_eq!(rt; (page[187], page[188], page[511]), (7, 0, 0));
    fs::remove_dir_all(&rt, path)?;
    Ok(())
}

#[test]
fn a_log_that_was_not_there_is_looked_for_again(rt: HostRuntime) -> Result<(), Fail> {
    let path = "file_live_log";
    folder(rt, path, &[("file_live_log/db", b"abc")])?;
    let mut live = entered(rt, "file_live_log/db")?;
    let mut into = [0; 4];
    assert_eq!(rt; live.wal_size()?, 0);
    assert_eq!(rt; live.read(&mut into)?, 0);
    File::create(&rt, "file_live_log/db-wal")?.write_all(b"abcdef")?;
    assert_eq!(rt; live.wal_size()?, 6);
    live.aim(1)?;
    assert_eq!(rt; live.read(&mut into)?, 4);
    assert_eq!(rt; into, *b"bcde");
    assert_eq!(rt; live.read(&mut into)?, 1);
    fs::remove_dir_all(&rt, path)?;
    Ok(())
}

#[test]
fn only_a_missing_file_is_absent(rt: HostRuntime) -> Result<(), Fail> {
    let path = "file_live_absent";
    folder(rt, path, &[("file_live_absent/db", b"abc")])?;
    let mut live = FileLive::new(rt);
    assert_eq!(rt;
        live.attach(rt.alloc(), "file_live_absent/none", false)?,
        Attached::Absent
    );
    assert_eq!(rt; live.faults(), 0);
    assert!(rt; live.attach(rt.alloc(), "file_live_absent", false).is_err());
    assert_eq!(rt; live.faults(), 1);
    assert!(rt;
        live.attach(rt.alloc(), "file_live_absent/db/below", false)
            .is_err()
    );
    assert_eq!(rt; live.faults(), 2);
    fs::remove_dir_all(&rt, path)?;
    Ok(())
}

#[test]
fn a_pass_is_refused_where_others_may_have_the_database_open(rt: HostRuntime) -> Result<(), Fail> {
    let mut live = FileLive::new(rt);
    let place = Place::Rest { sum: 1 << 63 };
    assert_eq!(rt; live.pass(rt.alloc(), &place)?, Pass::Kept);
    assert_eq!(rt; live.faults(), 0);
    Ok(())
}
