use crate::{HeaderFault, read_db_header};
use std::test::*;

/// The header of a database in WAL mode, with pages of 512 bytes.
fn header() -> [u8; 100] {
    let mut header = [0; 100];
    for (place, byte) in b"SQLite format 3\0\x02\0\x02\x02".iter().enumerate() {
        header[place] = *byte;
    }
    header
}

/// What is changed in the header from offset 16 on, and the fault.
const FAULTS: [(&[u8], HeaderFault); 5] = [
    (&[0, 0], HeaderFault::BadPageSize(0)),
    (&[1, 0], HeaderFault::BadPageSize(256)),
    (&[3, 0, 1, 1], HeaderFault::BadPageSize(768)),
    (&[2, 0, 1, 1], HeaderFault::NotWalMode { write: 1, read: 1 }),
    (&[2, 0, 2, 1], HeaderFault::NotWalMode { write: 2, read: 1 }),
];

#[test]
fn a_header_that_is_none(rt: HostRuntime) {
    assert_eq!(rt; read_db_header(&[0; 99]), Err(HeaderFault::Short(99)));
    assert_eq!(rt; read_db_header(&[0; 100]), Err(HeaderFault::NotDatabase));
    for (fields, fault) in FAULTS {
        let mut header = header();
        header[16..16 + fields.len()].copy_from_slice(fields);
        assert_eq!(rt; read_db_header(&header), Err(fault));
    }
}

#[test]
fn the_page_size_of_a_header(rt: HostRuntime) {
    for (high, low, size) in [
        (2, 0, 512u32),
        (16, 0, 4096),
        (128, 0, 32768),
        (0, 1, 65536),
    ] {
        let mut header = header();
        header[16] = high;
        header[17] = low;
        let size_found = read_db_header(&header).ok().map(|size| size.get());
        assert_eq!(rt; size_found, Some(size));
    }
}
