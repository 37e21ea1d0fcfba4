//! What a disk answers of its names and of a file's bytes.

use crash_disk::{Disk, MemDisk, Name, NameList};
use std::test::Fail;

#[test]
fn a_disk_has_the_names_of_its_files(rt: HostRuntime) -> Result<(), Fail> {
    let mut disk = MemDisk::new(rt.alloc());
    disk.put_file("a", b"bc")?;
    let names = disk.names(rt.alloc())?;
    assert_eq!(rt; names.len(), 1);
    assert_eq!(rt; names.get(0), Some("a"));
    assert_eq!(rt; names.get(1), None);
    Ok(())
}

#[test]
fn names_are_listed_in_their_order(rt: HostRuntime) -> Result<(), Fail> {
    let mut names = NameList::new(rt.alloc());
    names.push("b")?;
    names.push("a")?;
    assert_eq!(rt; names.get(1), Some("a"));
    let name = Name::from_str(rt.alloc(), "a")?;
    assert_eq!(rt; name.as_str(), "a");
    assert!(rt; name.is("a") && !name.is("b"));
    Ok(())
}

#[test]
fn bytes_are_read_from_an_offset_on(rt: HostRuntime) -> Result<(), Fail> {
    let mut disk = MemDisk::new(rt.alloc());
    disk.put_file("a", b"abc")?;
    let mut into = [b'.'; 4];
    assert_eq!(rt; disk.read_at("a", 1, &mut into), Ok(2));
    assert_eq!(rt; into, [b'b', b'c', b'.', b'.']);
    assert_eq!(rt; disk.read_at("a", 4, &mut into), Ok(0));
    assert_eq!(rt; disk.read_at("b", 0, &mut into), Ok(0));
    assert_eq!(rt; disk.size("a"), Ok(Some(3)));
    assert_eq!(rt; disk.size("b"), Ok(None));
    Ok(())
}
