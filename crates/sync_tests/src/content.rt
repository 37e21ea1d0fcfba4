//! Databases with their logs, and the files that syncs of them are to store.

use crash_disk::MemDisk;
use live_gate::StillLive;
use ls_base::{Line, Place};
use replica_store::{get, list, read_name};
use std::alloc::Global;
use std::test::Fail;

/// 2023-11-14T22:13:20Z.
pub const MOMENT: u64 = 1_700_000_000_000;

/// A size of pages, and what a database's header writes for it.
#[derive(Clone, Copy)]
struct Size {
    bytes: usize,
    field: [u8; 2],
}

const SMALL: Size = Size {
    bytes: 512,
    field: [2, 0],
};

const LARGE: Size = Size {
    bytes: 65536,
    field: [0, 1],
};

/// A page: its number, and the byte that fills it. Page 1 begins with the header of a database all the same.
type Page = (u32, u8);

/// A frame of a log: its page, the size in pages behind it where it commits, else 0, and its two sums.
type Frame = (Page, u32, [u32; 2]);

/// A log. Its salts are 1 and 2, and its sums are of numbers that begin with the great byte.
#[derive(Clone, Copy)]
pub struct Log {
    size: Size,
    header: &'static [u8; 32],
    frames: &'static [Frame],
}

/// A commit of two pages, and three of the second of them.
pub const FOUR_COMMITS: Log = Log {
    size: SMALL,
    header: b"\x37\x7f\x06\x83\x00\x2d\xe2\x18\0\0\x02\0\0\0\0\0\
\0\0\0\x01\0\0\0\x02\x16\x04\xca\xd8\xbc\xdd\xa4\x93",
    frames: &[
        ((1, 0x11), 0, [0x4709_9a39, 0x8cfa_b4d4]),
        ((2, 0x22), 2, [0xdfdb_b9ce, 0xd7a6_1ac1]),
        ((2, 0x33), 2, [0xbdbd_e5e4, 0xacfd_efcf]),
        ((2, 0x44), 2, [0x5f74_f963, 0xe0e5_9aad]),
        ((2, 0x55), 2, [0xb870_bc44, 0x4af7_245a]),
    ],
};

/// A commit of one page of the largest size.
pub const LARGE_COMMIT: Log = Log {
    size: LARGE,
    header: b"\x37\x7f\x06\x83\x00\x2d\xe2\x18\0\x01\0\0\0\0\0\0\
\0\0\0\x01\0\0\0\x02\x16\x06\xc6\xd8\xbc\xe0\x9e\x93",
    frames: &[((1, 0x11), 1, [0xc56b_71c5, 0x7c7d_3828])],
};

/// A file that is to be stored.
#[derive(Clone, Copy)]
pub struct Stored {
    pub path: &'static str,
    size: Size,
    header: &'static [u8; 100],
    pages: &'static [Page],
    sum: u64,
    bytes: usize,
}

/// The whole state behind the first commit: the log has 1072 bytes behind its header up to there.
pub const WHOLE: Stored = Stored {
    path: "ltx/9/0000000000000001-0000000000000001.ltx",
    size: SMALL,
    header: b"LTX1\0\0\0\x02\0\0\x02\0\0\0\0\x02\0\0\0\0\0\0\0\x01\0\0\0\0\0\0\0\x01\
\0\0\x01\x8b\xcf\xe5\x68\0\0\0\0\0\0\0\0\0\0\0\0\0\0\0\0\x20\0\0\0\0\0\0\x04\x30\
\0\0\0\x01\0\0\0\x02\0\0\0\0\0\0\0\0\xdf\xdb\xb9\xce\xd7\xa6\x1a\xc1\0\0\0\0\0\0\0\0\0\0\0\0",
    pages: &[(1, 0x11), (2, 0x22)],
    sum: 0x92a3_9f38_d8f9_6e51,
    bytes: 1158,
};

/// The piece of the three commits behind it, a second later.
pub const PIECE: Stored = Stored {
    path: "ltx/0/0000000000000002-0000000000000002.ltx",
    size: SMALL,
    header: b"LTX1\0\0\0\x02\0\0\x02\0\0\0\0\x02\0\0\0\0\0\0\0\x02\0\0\0\0\0\0\0\x02\
\0\0\x01\x8b\xcf\xe5\x6b\xe8\0\0\0\0\0\0\0\0\0\0\0\0\0\0\0\x20\0\0\0\0\0\0\x0a\x78\
\0\0\0\x01\0\0\0\x02\0\0\0\0\0\0\0\0\xb8\x70\xbc\x44\x4a\xf7\x24\x5a\0\0\0\0\0\0\0\0\0\0\0\0",
    pages: &[(2, 0x55)],
    sum: 0xcbb1_13b5_b751_2ac3,
    bytes: 640,
};

/// The whole state of one page of the largest size.
pub const LARGE_WHOLE: Stored = Stored {
    path: "ltx/9/0000000000000001-0000000000000001.ltx",
    size: LARGE,
    header: b"LTX1\0\0\0\x02\0\x01\0\0\0\0\0\x01\0\0\0\0\0\0\0\x01\0\0\0\0\0\0\0\x01\
\0\0\x01\x8b\xcf\xe5\x68\0\0\0\0\0\0\0\0\0\0\0\0\0\0\0\0\x20\0\0\0\0\0\x01\0\x18\
\0\0\0\x01\0\0\0\x02\0\0\0\0\0\0\0\0\xc5\x6b\x71\xc5\x7c\x7d\x38\x28\0\0\0\0\0\0\0\0\0\0\0\0",
    pages: &[(1, 0x11)],
    sum: 0x979e_dfe6_40f9_bb78,
    bytes: 65664,
};

/// The line of the file of the whole state.
pub const WHOLE_LINE: Line = Line {
    place: Place::Wal {
        salt1: 1,
        salt2: 2,
        end: 1104,
        s0: 0xdfdb_b9ce,
        s1: 0xd7a6_1ac1,
    },
    moment: MOMENT,
};

/// Puts the bytes of a page last.
fn put_page(alloc: Global, bytes: &mut Vec<u8>, size: Size, page: Page) -> Result<(), Fail> {
    let (number, fill) = page;
    let filled = vec![in alloc; fill; size.bytes]?;
    if number != 1 {
        bytes.extend_from_slice(&filled)?;
        return Ok(());
    }
    bytes.extend_from_slice(b"SQLite format 3\0")?;
    bytes.extend_from_slice(&size.field)?;
    bytes.extend_from_slice(b"\x02\x02")?;
    bytes.extend_from_slice(&[0; 80])?;
    bytes.extend_from_slice(filled.get(100..).ok_or("a page")?)?;
    Ok(())
}

impl Log {
    /// The bytes up to the end of so many frames.
    fn bytes(&self, alloc: Global, count: usize) -> Result<Vec<u8>, Fail> {
        let header = self.header;
        let frames = self.frames;
        let mut bytes = Vec::from_slice(alloc, header)?;
        for (page, commit, sums) in frames.iter().take(count) {
            bytes.extend_from_slice(&page.0.to_be_bytes())?;
            bytes.extend_from_slice(&commit.to_be_bytes())?;
            bytes.extend_from_slice(&[0, 0, 0, 1, 0, 0, 0, 2])?;
            bytes.extend_from_slice(&sums[0].to_be_bytes())?;
            bytes.extend_from_slice(&sums[1].to_be_bytes())?;
            put_page(alloc, &mut bytes, self.size, *page)?;
        }
        Ok(bytes)
    }

    /// A database of one page of zeros, with the log up to the end of so many frames.
    pub fn live(&self, alloc: Global, count: usize) -> Result<StillLive, Fail> {
        let mut database = Vec::new(alloc);
        put_page(alloc, &mut database, self.size, (1, 0))?;
        let log = self.bytes(alloc, count)?;
        Ok(StillLive::new(alloc, &database, &log)?)
    }
}

impl Stored {
    /// The bytes of the file.
    fn content(&self, alloc: Global) -> Result<Vec<u8>, Fail> {
        let header = self.header;
        let pages = self.pages;
        let mut bytes = Vec::from_slice(alloc, header)?;
        for page in pages {
            bytes.extend_from_slice(&page.0.to_be_bytes())?;
            bytes.extend_from_slice(&[0; 2])?;
            put_page(alloc, &mut bytes, self.size, *page)?;
        }
        bytes.extend_from_slice(&[0; 14])?;
        bytes.extend_from_slice(&self.sum.to_be_bytes())?;
        Ok(bytes)
    }

    /// Whether the store has the file with these bytes.
    pub fn is_in(&self, alloc: Global, store: &mut MemDisk) -> Result<bool, Fail> {
        let name = read_name(self.path).ok_or("a name")?;
        let found = get(alloc, store, &name)?;
        let wanted = self.content(alloc)?;
        Ok(wanted.len() == self.bytes && found.as_slice() == wanted.as_slice())
    }
}

/// How many files the replica has.
pub fn files_in(alloc: Global, store: &mut MemDisk) -> Result<usize, Fail> {
    Ok(list(alloc, store)?.as_slice().len())
}
