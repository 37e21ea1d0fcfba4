//! Files of a replica, and what an output has. Each page has 512 bytes.

use crash_disk::{Disk, MemDisk};
use std::alloc::{AllocError, Global};
use std::test::Fail;

/// The name of the output in its folder.
pub const OUTPUT: &str = "o";

/// A transaction file. Page 1 begins with the header of a database, and the rest of a page is one byte again
/// and again.
#[derive(Clone, Copy)]
pub struct Made {
    pub path: &'static str,
    /// How many pages the database has afterwards.
    pub commit: u32,
    pub first: u64,
    pub last: u64,
    /// In ms since 1970-01-01T00:00:00Z.
    pub moment: u64,
    /// The number and the byte of each page.
    pub pages: &'static [(u32, u8)],
    /// The file's own sum, as a program in another language computed it.
    pub sum: u64,
}

/// Transaction 1: two pages, at 2023-11-14T22:13:20Z.
pub const WHOLE: Made = Made {
    path: "ltx/9/0000000000000001-0000000000000001.ltx",
    commit: 2,
    first: 1,
    last: 1,
    moment: 1_700_000_000_000,
    pages: &[(1, 0x11), (2, 0x22)],
    sum: 0xf856_1898_5aa5_0591,
};

/// Transaction 2: another page 2, at the same moment.
pub const PIECE: Made = Made {
    path: "ltx/0/0000000000000002-0000000000000002.ltx",
    commit: 2,
    first: 2,
    last: 2,
    moment: 1_700_000_000_000,
    pages: &[(2, 0x55)],
    sum: 0x82a7_8366_cc39_1565,
};

/// Transaction 2 in another replica: a third page, a second later.
pub const GROWN: Made = Made {
    path: "ltx/0/0000000000000002-0000000000000002.ltx",
    commit: 3,
    first: 2,
    last: 2,
    moment: 1_700_000_001_000,
    pages: &[(3, 0x33)],
    sum: 0x9abc_aeae_2170_9b50,
};

/// Transaction 3 behind it: one page is left, two seconds later.
pub const SHRUNK: Made = Made {
    path: "ltx/0/0000000000000003-0000000000000003.ltx",
    commit: 1,
    first: 3,
    last: 3,
    moment: 1_700_000_002_000,
    pages: &[(1, 0x44)],
    sum: 0xf937_05e8_4ccb_6678,
};

/// Transaction 2 in another replica: three pages, of which none has the third.
pub const LACKING: Made = Made {
    path: "ltx/0/0000000000000002-0000000000000002.ltx",
    commit: 3,
    first: 2,
    last: 2,
    moment: 1_700_000_000_000,
    pages: &[(2, 0x55)],
    sum: 0xc35b_fa74_5240_f299,
};

/// Transactions 1 to 4 in one file.
pub const FIRST_FOUR: Made = Made {
    path: "ltx/9/0000000000000001-0000000000000004.ltx",
    commit: 2,
    first: 1,
    last: 4,
    moment: 1_700_000_000_000,
    pages: &[(1, 0x11), (2, 0x22)],
    sum: 0xd1bc_1e44_3009_7414,
};

/// Transactions 5 and 6 in one file.
pub const NEXT_TWO: Made = Made {
    path: "ltx/1/0000000000000005-0000000000000006.ltx",
    commit: 2,
    first: 5,
    last: 6,
    moment: 1_700_000_001_000,
    pages: &[(2, 0x55)],
    sum: 0xce30_e205_1204_c6b4,
};

/// Puts the bytes of a page last.
fn put_page(bytes: &mut Vec<u8>, number: u32, fill: u8) -> Result<(), AllocError> {
    if number != 1 {
        return bytes.extend_from_slice(&[fill; 512]);
    }
    bytes.extend_from_slice(b"SQLite format 3\0\x02\0\x02\x02")?;
    bytes.extend_from_slice(&[0; 80])?;
    bytes.extend_from_slice(&[fill; 412])
}

/// The bytes of the file.
pub fn bytes_of(alloc: Global, made: &Made) -> Result<Vec<u8>, AllocError> {
    let mut file = Vec::from_slice(alloc, b"LTX1\0\0\0\x02\0\0\x02\0")?;
    file.extend_from_slice(&made.commit.to_be_bytes())?;
    file.extend_from_slice(&made.first.to_be_bytes())?;
    file.extend_from_slice(&made.last.to_be_bytes())?;
    file.extend_from_slice(&made.moment.to_be_bytes())?;
    file.extend_from_slice(&[0; 40])?;
    file.extend_from_slice(b"\x80\0\0\0\0\0\0\0\0\0\0\0\0\0\0\0\0\0\0\0")?;
    for (number, fill) in made.pages {
        file.extend_from_slice(&number.to_be_bytes())?;
        file.extend_from_slice(&[0; 2])?;
        put_page(&mut file, *number, *fill)?;
    }
    file.extend_from_slice(&[0; 14])?;
    file.extend_from_slice(&made.sum.to_be_bytes())?;
    Ok(file)
}

/// The replicas of the tests.
#[derive(Clone, Copy)]
pub enum Replica {
    /// No file.
    Empty,
    /// Transaction 1.
    Whole,
    /// Transactions 1 and 2 of one moment.
    Two,
    /// Transactions 1 to 3, of which the second adds a page and the third leaves one.
    Growing,
    /// Transactions 1 to 4, and 5 and 6.
    Runs,
    /// Transactions 1 and 2, where the second lacks a page.
    Lacking,
}

const TWO: [Made; 2] = [PIECE, WHOLE];

const GROWING: [Made; 3] = [GROWN, SHRUNK, WHOLE];

const RUNS: [Made; 2] = [NEXT_TWO, FIRST_FOUR];

const LACKING_ONE: [Made; 2] = [LACKING, WHOLE];

fn put_files(alloc: Global, store: &mut MemDisk, files: &[Made]) -> Result<(), Fail> {
    for made in files {
        let bytes = bytes_of(alloc, made)?;
        store.put_file(made.path, &bytes)?;
    }
    Ok(())
}

/// A disk with the replica.
pub fn disk_of(alloc: Global, replica: Replica) -> Result<MemDisk, Fail> {
    let mut store = MemDisk::new(alloc);
    match replica {
        Replica::Empty => {}
        Replica::Whole => put_files(alloc, &mut store, &[WHOLE])?,
        Replica::Two => put_files(alloc, &mut store, &TWO)?,
        Replica::Growing => put_files(alloc, &mut store, &GROWING)?,
        Replica::Runs => put_files(alloc, &mut store, &RUNS)?,
        Replica::Lacking => put_files(alloc, &mut store, &LACKING_ONE)?,
    }
    Ok(store)
}

/// A database of pages with these bytes.
pub fn database(alloc: Global, fills: &[u8]) -> Result<Vec<u8>, AllocError> {
    let mut bytes = Vec::new(alloc);
    let mut number = 1;
    for fill in fills {
        put_page(&mut bytes, number, *fill)?;
        number = 2;
    }
    Ok(bytes)
}

/// A disk with an output of pages with these bytes, and without one where there are none.
pub fn disk_with(alloc: Global, fills: &[u8]) -> Result<MemDisk, Fail> {
    let mut target = MemDisk::new(alloc);
    if !fills.is_empty() {
        target.put_file(OUTPUT, &database(alloc, fills)?)?;
    }
    Ok(target)
}

/// Whether the output has pages with these bytes, at most three of them, and is absent where there are none.
pub fn holds(alloc: Global, target: &mut MemDisk, fills: &[u8]) -> Result<bool, Fail> {
    let size = target.size(OUTPUT)?;
    let mut into = [0; 2048];
    let count = target.read_at(OUTPUT, 0, &mut into)?;
    let wanted = database(alloc, fills)?;
    Ok(size.is_some() != fills.is_empty() && &into[..count] == wanted.as_slice())
}
