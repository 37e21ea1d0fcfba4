use crate::FileDisk;
use crash_disk::{Disk, DiskFault, NameList, NamesFault};
use std::fs;
use std::test::Fail;

/// A disk that is attached to a folder which isn't there yet.
fn attached(rt: HostRuntime, folder: &str) -> Result<FileDisk, NamesFault> {
    let _ = fs::remove_dir_all(&rt, folder);
    let mut disk = FileDisk::new(rt);
    disk.attach(rt.alloc(), folder)?;
    Ok(disk)
}

fn put(disk: &mut FileDisk, name: &str, bytes: &[u8]) -> Result<(), DiskFault> {
    disk.create(name)?;
    disk.append(name, bytes)?;
    disk.sync(name)
}

/// What a read into four bytes gives, and the bytes.
fn read(disk: &mut FileDisk, name: &str, at: u64) -> Result<(usize, [u8; 4]), DiskFault> {
    let mut into = [0; 4];
    let count = disk.read_at(name, at, &mut into)?;
    Ok((count, into))
}

#[test]
fn a_real_file_holds_what_was_appended(rt: HostRuntime) -> Result<(), Fail> {
    let folder = "file_disk_appends";
    let mut disk = attached(rt, folder)?;
    assert_eq!(rt; disk.size("ltx/9/x.ltx")?, None);
    put(&mut disk, "ltx/9/x.ltx", b"abc")?;
    disk.append("ltx/9/x.ltx", b"de")?;
    assert_eq!(rt; disk.size("ltx/9/x.ltx")?, Some(5));
    assert_eq!(rt; read(&mut disk, "ltx/9/x.ltx", 2)?, (3, *b"cde\0"));
    fs::remove_dir_all(&rt, folder)?;
    Ok(())
}

#[test]
fn a_name_of_a_real_file_changes_and_goes(rt: HostRuntime) -> Result<(), Fail> {
    let folder = "file_disk_renames";
    let mut disk = attached(rt, folder)?;
    put(&mut disk, "new", b"new")?;
    put(&mut disk, "old", b"old")?;
    assert_eq!(rt; read(&mut disk, "old", 0)?, (3, *b"old\0"));
    disk.rename("new", "old")?;
    disk.sync_names()?;
    assert_eq!(rt; read(&mut disk, "old", 0)?, (3, *b"new\0"));
    put(&mut disk, "old", b"anew")?;
    assert_eq!(rt; read(&mut disk, "old", 0)?, (4, *b"anew"));
    disk.remove("old")?;
    disk.remove("old")?;
    assert_eq!(rt; read(&mut disk, "old", 0)?, (0, [0; 4]));
    fs::remove_dir_all(&rt, folder)?;
    Ok(())
}

#[test]
fn a_real_file_is_written_at_an_offset_and_cut(rt: HostRuntime) -> Result<(), Fail> {
    let folder = "file_disk_writes";
    let mut disk = attached(rt, folder)?;
    put(&mut disk, "x", b"abc")?;
    disk.write_at("x", 1, b"xy")?;
    disk.cut("x", 2)?;
    disk.write_at("x", 3, b"z")?;
    assert_eq!(rt; read(&mut disk, "x", 0)?, (4, *b"ax\0z"));
    disk.cut("x", 6)?;
    assert_eq!(rt; read(&mut disk, "x", 3)?, (3, *b"z\0\0\0"));
    fs::remove_dir_all(&rt, folder)?;
    Ok(())
}

/// Two files of levels, and three that are none.
const MADE: [&str; 5] = ["ltx/0/x", "ltx/9/y", "ltx/9/below/x", "ltx/5/x", "note"];

/// Whether a name is in the list.
fn has(names: &NameList, wanted: &str) -> bool {
    (0..names.len()).any(|at| names.get(at) == Some(wanted))
}

#[test]
fn the_regular_files_of_the_levels_are_listed(rt: HostRuntime) -> Result<(), Fail> {
    let folder = "file_disk_lists";
    let mut disk = attached(rt, folder)?;
    assert_eq!(rt; disk.names(rt.alloc())?.len(), 0);
    for name in MADE {
        disk.create(name)?;
    }
    disk.sync_names()?;
    let names = disk.names(rt.alloc())?;
    assert_eq!(rt; names.len(), 2);
    assert!(rt; has(&names, "ltx/0/x") && has(&names, "ltx/9/y"));
    fs::remove_dir_all(&rt, folder)?;
    Ok(())
}

#[test]
fn faults_of_real_files_are_counted(rt: HostRuntime) -> Result<(), Fail> {
    let folder = "file_disk_faults";
    let mut disk = attached(rt, folder)?;
    put(&mut disk, "x", b"abc")?;
    assert_eq!(rt; disk.faults(), 0);
    assert!(rt; disk.append("absent", b"abc").is_err());
    assert!(rt; disk.size("x/below_a_file").is_err());
    assert_eq!(rt; disk.faults(), 2);
    fs::remove_dir_all(&rt, folder)?;
    Ok(())
}
