//! Logs of five frames with two commits, whole, in pieces and damaged. The expected sums and marks come from
//! a script in Python that follows the file format.

ghost use Rattle.std.specs.Prelude.{◌≡◌, ◌+◌, ◌<◌, ◌≤◌, ◌^◌, length, IfOk};
ghost use Rattle.wal_frames.specs.WalFormat.{HasSums};

use crate::{
    Fed, Frame, NotValid, Scan, WalHeader, WalHeaderFault, check_frame, read_wal_header,
    write_frame, write_wal_header,
};
use ls_base::{Mark, PageSize};
use ls_sums::{Order, WalSum};
use std::alloc::Global;
use std::test::Fail;

/// The header of a log with pages of 512 bytes and salts 1 and 2.
const HEADER: [u8; 32] = [
    0x37, 0x7f, 0x06, 0x83, 0x00, 0x2d, 0xe2, 0x18, 0, 0, 2, 0, 0, 0, 0, 0, 0, 0, 0, 1, 0, 0, 0, 2,
    0x16, 0x04, 0xca, 0xd8, 0xbc, 0xdd, 0xa4, 0x93,
];

/// The length of a frame with a page of 512 bytes.
const FRAME_BYTES: usize = 536;
/// The length of a log of five frames.
const LOG_BYTES: usize = 2712;
/// The page number and the commit size of each frame.
const FRAMES: [(u32, u32); 5] = [(1, 0), (2, 2), (3, 0), (2, 0), (1, 3)];

/// A log of five frames under the header, with pages of 512 bytes.
fn five_frames(head: &WalHeader) -> [u8; LOG_BYTES]
    requires size { head.now.size ≡ 512 }
    requires sums { HasSums head.now }
{
    let mut log = [0; LOG_BYTES];
    let mut front = [0; 32];
    write_wal_header(head, &mut front);
    log[..32].copy_from_slice(&front);
    let mut sums = WalSum {
        s0: head.s0,
        s1: head.s1,
    };
    for k in 0..5 {
        let (number, commit) = FRAMES[k];
        let start = 32 + FRAME_BYTES * k;
        sums = write_frame(
            head,
            sums,
            number,
            commit,
            &page(k),
            &mut log[start..start + FRAME_BYTES],
        );
    }
    log
}

/// A page that is filled with rising bytes.
fn page(k: usize) -> [u8; 512]
    requires { k < 5 }
{
    let mut page = [0; 512];
    for i in 0..512 {
        page[i] = ((7 * k + i) % 251) as u8;
    }
    page
}

/// Feeds all bytes to the scan. Answers how many frames ended in them.
fn feed_all(scan: &mut Scan, bytes: &[u8]) -> u64
    requires { scan.old.taken + length bytes.now < 2 ^ 63 }
    ensures { scan.new.taken ≡ scan.old.taken + length bytes.now }
{
    let mut rest = bytes;
    let mut frames = 0u64;
    while let Fed::Frame { taken, .. } = scan.feed(rest) {
        rest = &rest[taken..];
        frames = frames.saturating_add(1);
    }
    frames
}

/// The last mark of the log, fed in pieces of this length.
fn last_in_pieces(alloc: Global, log: &[u8], piece: usize) -> Result<Option<Mark>, Fail>
    requires log { 32 ≤ length log.now }
    requires some { 1 ≤ piece }
    requires small { piece + length log.now < 2 ^ 63 }
{
    let head = read_wal_header(log).ok().ok_or("the header is accepted")?;
    let mut scan = Scan::begin(alloc, head)?;
    let mut at = 32;
    while at < log.len() {
        let end = (at + piece).min(log.len());
        feed_all(&mut scan, &log[at..end]);
        at = end;
    }
    Ok(scan.last())
}

/// The header of a log with pages of 512 bytes.
fn head_with(order: Order) -> Result<WalHeader, Fail>
    ensures { IfOk result (λ head. (head.size ≡ 512) × HasSums head) }
{
    let size = PageSize::from_u32(512).ok_or("512 is a page size")?;
    Ok(WalHeader::new(order, size, 7, 0x0102_0304, 0xa0b0_c0d0))
}

/// The first mark of the log of five frames whose sums read words with the lowest byte first.
const FIRST: Mark = Mark {
    salt1: 0x0102_0304,
    salt2: 0xa0b0_c0d0,
    end: 1104,
    s0: 0x9877_75fe,
    s1: 0x2707_066e,
    commit: 2,
};

/// Its last mark.
const LAST: Mark = Mark {
    salt1: 0x0102_0304,
    salt2: 0xa0b0_c0d0,
    end: 2712,
    s0: 0x5de1_2575,
    s1: 0xee05_8332,
    commit: 3,
};

/// The last mark of the log whose sums read words with the highest byte first.
const LAST_BIG: Mark = Mark {
    salt1: 0x0102_0304,
    salt2: 0xa0b0_c0d0,
    end: 2712,
    s0: 0x71b0_3558,
    s1: 0xd2f4_1fd1,
    commit: 3,
};

#[test]
fn a_header_is_written_and_read(rt: HostRuntime) -> Result<(), Fail> {
    let size = PageSize::from_u32(512).ok_or("512 is a page size")?;
    let head = WalHeader::new(Order::Big, size, 0, 1, 2);
    let mut bytes = [0; 32];
    write_wal_header(&head, &mut bytes);
    assert_eq!(rt; bytes, HEADER);
    assert_eq!(rt; read_wal_header(&HEADER), Ok(head));
    Ok(())
}

/// A byte of the header, what is written there, and the fault.
const HEADER_FAULTS: [(usize, u8, WalHeaderFault); 6] = [
    (3, 0x84, WalHeaderFault::BadMagic),
    (3, 0x82, WalHeaderFault::BadSum),
    (7, 0x19, WalHeaderFault::BadVersion),
    (10, 3, WalHeaderFault::BadSize),
    (15, 1, WalHeaderFault::BadSum),
    (31, 0, WalHeaderFault::BadSum),
];

#[test]
fn a_header_that_is_refused(rt: HostRuntime) {
    assert_eq!(rt; read_wal_header(&HEADER[..31]), Err(WalHeaderFault::Short));
    for (at, byte, fault) in HEADER_FAULTS {
        let mut bytes = HEADER;
        bytes[at] = byte;
        assert_eq!(rt; read_wal_header(&bytes), Err(fault), "at {at}");
    }
}

#[test]
fn a_log_in_pieces_has_one_last_mark(rt: HostRuntime) -> Result<(), Fail> {
    let log = five_frames(&head_with(Order::Little)?);
    for length in [LOG_BYTES, 1, 7, 23, 24, 25, 4096] {
        let last = last_in_pieces(rt.alloc(), &log, length)?;
        assert_eq!(rt; last, Some(LAST), "in pieces of {length}");
    }
    let big = five_frames(&head_with(Order::Big)?);
    assert_eq!(rt; last_in_pieces(rt.alloc(), &big, 4096)?, Some(LAST_BIG));
    Ok(())
}

#[test]
fn a_flipped_byte_ends_the_prefix_before_its_frame(rt: HostRuntime) -> Result<(), Fail> {
    let log = five_frames(&head_with(Order::Little)?);
    for at in 0..LOG_BYTES {
        let mut flipped = log;
        flipped[at] ^= 0x10;
        if at < 32 {
            assert!(rt; read_wal_header(&flipped).is_err(), "at {at}");
        } else {
            let mark = if at < 1104 { None } else { Some(FIRST) };
            assert_eq!(rt;
                last_in_pieces(rt.alloc(), &flipped, 4096)?,
                mark,
                "at {at}"
            );
        }
    }
    Ok(())
}

#[test]
fn a_scan_goes_back_and_on(rt: HostRuntime) -> Result<(), Fail> {
    let head = head_with(Order::Little)?;
    let mut log = five_frames(&head);
    let mut scan = Scan::begin(rt.alloc(), head)?;
    let frame = scan.feed(&log[32..]);
    assert_eq!(rt;
        frame,
        Fed::Frame {
            taken: 536,
            number: 1,
            commit: 0,
            end: 568,
        }
    );
    assert_eq!(rt; feed_all(&mut scan, &log[568..]), 4);
    scan.back(&FIRST);
    assert_eq!(rt; scan.last(), Some(FIRST));
    assert_eq!(rt; feed_all(&mut scan, &log[1104..]), 3);
    assert_eq!(rt; scan.last(), Some(LAST));
    assert_eq!(rt; scan.stopped(), None);
    scan.back(&FIRST);
    log[2711] ^= 1;
    assert_eq!(rt; feed_all(&mut scan, &log[1104..]), 2);
    assert_eq!(rt; scan.stopped(), Some(NotValid::Sum));
    assert_eq!(rt; scan.last(), Some(FIRST));
    Ok(())
}

/// A byte of the first frame, what is written there, and the fault.
const FRAME_FAULTS: [(usize, u8, NotValid); 4] = [
    (11, 5, NotValid::Salt),
    (15, 5, NotValid::Salt),
    (3, 0, NotValid::Zero),
    (7, 1, NotValid::Sum),
];

#[test]
fn a_frame_that_is_refused(rt: HostRuntime) -> Result<(), Fail> {
    let head = head_with(Order::Little)?;
    let log = five_frames(&head);
    let sums = WalSum {
        s0: head.s0,
        s1: head.s1,
    };
    for (at, byte, fault) in FRAME_FAULTS {
        let mut frame = [0; FRAME_BYTES];
        frame.copy_from_slice(&log[32..568]);
        frame[at] = byte;
        assert_eq!(rt;
            check_frame(&head, sums, &frame),
            Frame::Not(fault),
            "at {at}"
        );
    }
    Ok(())
}
