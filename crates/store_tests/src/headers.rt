//! Headers of files, of which nothing but the first 100 bytes count.

use crash_disk::MemDisk;
use ltx_format::LtxFault;
use replica_store::{Damage, StoreError, dated, header_of, list, read_name};
use std::alloc::Global;
use std::test::Fail;

const FIRST: &str = "ltx/9/0000000000000001-0000000000000001.ltx";

const SECOND: &str = "ltx/0/0000000000000002-0000000000000002.ltx";

const THIRD: &str = "ltx/0/0000000000000003-0000000000000003.ltx";

const ABSENT: &str = "ltx/0/0000000000000004-0000000000000004.ltx";

/// 2023-11-14T22:13:20Z.
const MOMENT: u64 = 1_700_000_000_000;

/// The header of a file of two pages of 512 bytes, of transaction 1 alone, with a place in the log.
const HEADER: &[u8; 100] = b"LTX1\0\0\0\x02\0\0\x02\0\0\0\0\x02\
\0\0\0\0\0\0\0\x01\0\0\0\0\0\0\0\x01\
\0\0\x01\x8b\xcf\xe5\x68\0\0\0\0\0\0\0\0\0\
\0\0\0\0\0\0\0\x20\0\0\0\0\0\0\x04\x30\
\0\0\0\x01\0\0\0\x02\0\0\0\0\0\0\0\0\
\0\0\0\0\0\0\0\0\0\0\0\0\0\0\0\0\0\0\0\0";

#[test]
fn a_header_is_read_under_its_name_alone(rt: HostRuntime) -> Result<(), Fail> {
    let mut store = MemDisk::new(rt.alloc());
    store.put_file(FIRST, HEADER)?;
    store.put_file(SECOND, HEADER)?;
    store.put_file(THIRD, &HEADER[..99])?;
    let first = read_name(FIRST).ok_or("no name")?;
    let second = read_name(SECOND).ok_or("no name")?;
    let third = read_name(THIRD).ok_or("no name")?;
    let absent = read_name(ABSENT).ok_or("no name")?;
    let moment = header_of(&mut store, &first).map(|header| header.moment);
    assert_eq!(rt; moment, Ok(MOMENT));
    let other = header_of(&mut store, &second).map(|header| header.moment);
    assert_eq!(rt;
        other,
        Err(StoreError::Damaged(second, Damage::NameDiffers))
    );
    let short = header_of(&mut store, &third).map(|header| header.moment);
    assert_eq!(rt;
        short,
        Err(StoreError::Damaged(third, Damage::File(LtxFault::Short)))
    );
    let none = header_of(&mut store, &absent).map(|header| header.moment);
    assert_eq!(rt;
        none,
        Err(StoreError::Damaged(absent, Damage::File(LtxFault::Short)))
    );
    Ok(())
}

/// The header with these flags; whether it says that an index stands in its file.
fn is_indexed(alloc: Global, flags: u8) -> Result<Result<bool, StoreError>, Fail> {
    let mut store = MemDisk::new(alloc);
    let mut header = *HEADER;
    header[7] = flags;
    store.put_file(FIRST, &header)?;
    let first = read_name(FIRST).ok_or("no name")?;
    Ok(header_of(&mut store, &first).map(|header| header.index))
}

#[test]
fn flags_6_stand_for_an_index(rt: HostRuntime) -> Result<(), Fail> {
    let first = read_name(FIRST).ok_or("no name")?;
    let refused = |fault| Err(StoreError::Damaged(first, Damage::File(fault)));
    assert_eq!(rt; is_indexed(rt.alloc(), 2)?, Ok(false));
    assert_eq!(rt; is_indexed(rt.alloc(), 6)?, Ok(true));
    assert_eq!(rt; is_indexed(rt.alloc(), 4)?, refused(LtxFault::BadFlags));
    assert_eq!(rt; is_indexed(rt.alloc(), 7)?, refused(LtxFault::Compressed));
    Ok(())
}

#[test]
fn names_get_the_moments_of_their_headers(rt: HostRuntime) -> Result<(), Fail> {
    let mut store = MemDisk::new(rt.alloc());
    store.put_file(FIRST, HEADER)?;
    let names = list(rt.alloc(), &mut store)?;
    let moments = dated(rt.alloc(), &mut store, names.as_slice())?;
    let moment = moments.as_slice().first().map(|named| named.moment);
    assert_eq!(rt; moment, Some(MOMENT));
    store.put_file(SECOND, HEADER)?;
    let names = list(rt.alloc(), &mut store)?;
    let damaged = dated(rt.alloc(), &mut store, names.as_slice()).map(|_| ());
    let second = read_name(SECOND).ok_or("no name")?;
    assert_eq!(rt;
        damaged,
        Err(StoreError::Damaged(second, Damage::NameDiffers))
    );
    Ok(())
}
