//! A database with its log.

use crash_disk::{MemDisk, MemOut};
use live_gate::StillLive;
use ls_answers::Why;
use replicate_command::{Request, replicate};
use std::alloc::Global;
use std::test::Fail;

/// 2023-11-14T22:13:20Z.
pub const MOMENT: u64 = 1_700_000_000_000;

/// The file of the whole state behind the first commit, and that of the piece behind it.
pub const WHOLE: &str = "ltx/9/0000000000000001-0000000000000001.ltx";

pub const PIECE: &str = "ltx/0/0000000000000002-0000000000000002.ltx";

/// A frame of a log: its page, the byte that fills it, the size in pages behind it where it commits, else 0, and its two
/// sums, one behind the other.
#[derive(Clone, Copy)]
struct Frame {
    number: u32,
    fill: u8,
    commit: u32,
    sums: u64,
}

/// The header of a log with pages of 512 bytes and the salts 1 and 2.
const HEADER: &[u8; 32] = b"\x37\x7f\x06\x83\x00\x2d\xe2\x18\0\0\x02\0\0\0\0\0\
\0\0\0\x01\0\0\0\x02\x16\x04\xca\xd8\xbc\xdd\xa4\x93";

/// A commit of two pages, and three of the second of them.
const FRAMES: [Frame; 5] = [
    Frame {
        number: 1,
        fill: 0x11,
        commit: 0,
        sums: 0x4709_9a39_8cfa_b4d4,
    },
    Frame {
        number: 2,
        fill: 0x22,
        commit: 2,
        sums: 0xdfdb_b9ce_d7a6_1ac1,
    },
    Frame {
        number: 2,
        fill: 0x33,
        commit: 2,
        sums: 0xbdbd_e5e4_acfd_efcf,
    },
    Frame {
        number: 2,
        fill: 0x44,
        commit: 2,
        sums: 0x5f74_f963_e0e5_9aad,
    },
    Frame {
        number: 2,
        fill: 0x55,
        commit: 2,
        sums: 0xb870_bc44_4af7_245a,
    },
];

/// Puts the bytes of a page last. Page 1 begins with the header of a database.
pub fn put_page(bytes: &mut Vec<u8>, number: u32, fill: u8) -> Result<(), Fail> {
    if number != 1 {
        bytes.extend_from_slice(&[fill; 512])?;
        return Ok(());
    }
    bytes.extend_from_slice(b"SQLite format 3\0\x02\0\x02\x02")?;
    bytes.extend_from_slice(&[0; 80])?;
    bytes.extend_from_slice(&[fill; 412])?;
    Ok(())
}

/// The log up to the end of so many frames.
fn log_of(alloc: Global, count: usize) -> Result<Vec<u8>, Fail> {
    let mut bytes = Vec::from_slice(alloc, HEADER)?;
    for frame in FRAMES.iter().take(count) {
        bytes.extend_from_slice(&frame.number.to_be_bytes())?;
        bytes.extend_from_slice(&frame.commit.to_be_bytes())?;
        bytes.extend_from_slice(&[0, 0, 0, 1, 0, 0, 0, 2])?;
        bytes.extend_from_slice(&frame.sums.to_be_bytes())?;
        put_page(&mut bytes, frame.number, frame.fill)?;
    }
    Ok(bytes)
}

/// A database of one page of zeros, with the log up to the end of so many frames and a part of one more.
pub fn database(alloc: Global, count: usize, part: &[u8]) -> Result<StillLive, Fail> {
    let mut file = Vec::new(alloc);
    put_page(&mut file, 1, 0)?;
    let mut log = log_of(alloc, count)?;
    log.extend_from_slice(part)?;
    Ok(StillLive::new(alloc, &file, &log)?)
}

/// Replicates the database in so many rounds.
pub fn run(
    alloc: Global,
    live: &mut StillLive,
    store: &mut MemDisk,
    out: &mut MemOut,
    rounds: u32,
    now: u64,
) -> Why {
    let request = Request {
        db: "db",
        replica: "replica",
        rounds,
        keep: 86_400_000,
        at_rest: false,
    };
    replicate(alloc, &request, now, live, store, out)
}
