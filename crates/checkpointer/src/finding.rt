//! What a log has up to an offset, found before anything is written.

ghost use Rattle.std.specs.Prelude.{◌≡◌, ◌<◌, ◌≤◌, ◌^◌, length, IfOk, IsErrOf};
ghost use Rattle.checkpointer.specs.declared.fault.BackfillFault.TheVariants.{NotMark};
ghost use Rattle.crash_disk.specs.Told.{IfTold};
ghost use Rattle.wal_frames.specs.Scanned.{scanned_to};
ghost use Rattle.checkpointer.specs.Fault.{BackfillHasCause};
ghost use Rattle.checkpointer.specs.PairState.{bytes_at};
ghost use Rattle.checkpointer.specs.Finding.{Begins, HasHeader, IsFound, NoneEnds};

use crate::fault::BackfillFault;
use crate::gathering::{HEADER_BYTES, gather_on};
use crate::reading::newer_mark;
use crash_disk::Disk;
use ls_base::{Mark, PageSize};
use std::alloc::Global;
use std::collections::BTreeMap;
use wal_frames::{Scan, WalHeader, read_wal_header};

/// How many bytes of a log are read at once.
const BUFFER_BYTES: usize = 65536;

/// What was found of a log up to a mark.
#[derive(Drop)]
pub(crate) struct Found {
    /// The scan, which stands at the mark.
    pub(crate) scan: Scan,
    /// Where the pages of the frames stand, by number.
    pub(crate) pages: BTreeMap<u32, u64>,
    /// The mark.
    pub(crate) mark: Mark,
    /// The page size of the log.
    pub(crate) size: PageSize,
    /// Whether it is the last one of the log.
    pub(crate) is_last: bool,
    /// Room for a piece of the log, and for any page.
    pub(crate) buffer: Vec<u8>,
}

/// The header with which the log begins. `NotMark` where that is refused.
fn begin_log<D: Disk>(disk: &mut D, wal: &str) -> Result<WalHeader, BackfillFault>
    ensures value { IfTold (D.told disk.old) (λ events. Begins (bytes_at events wal.now) result) }
    ensures unchanged { D.told disk.new ≡ D.told disk.old }
    ensures same_folder { D.folder disk.new ≡ D.folder disk.old }
    ensures cause { BackfillHasCause (D.fault_count disk.old) (D.fault_count disk.new) result }
{
    let mut front = [0u8; 32];
    let count = match disk.read_at(wal, 0, &mut front) {
        Err(fault) => return Err(BackfillFault::Disk(fault)),
        Ok(count) => count,
    };
    if count < front.len() {
        return Err(BackfillFault::NotMark);
    }
    match read_wal_header(&front) {
        Err(_) => Err(BackfillFault::NotMark),
        Ok(head) => Ok(head),
    }
}

/// Finds the commit of the log that ends at the offset, with the pages of the frames up to it. `NotMark` where
/// no commit ends there.
pub(crate) fn find<D: Disk>(
    alloc: Global,
    disk: &mut D,
    wal: &str,
    upto: u64,
) -> Result<Found, BackfillFault>
    ensures found { IfOk result (λ found. IfTold (D.told disk.old) (λ events.
        IsFound (bytes_at events wal.now) upto found.scan.head found.pages found.mark found.is_last)) }
    ensures stands { IfOk result (λ found.
        (found.scan ≡ scanned_to found.scan.head found.mark) × (32 ≤ found.mark.end)) }
    ensures size { IfOk result (λ found. found.size ≡ found.scan.head.size) }
    ensures room { IfOk result (λ found. length found.buffer.items ≡ 65536) }
    ensures not_mark { IfTold (D.told disk.old) (λ events.
        IsErrOf result NotMark → NoneEnds (bytes_at events wal.now) upto) }
    ensures unchanged { D.told disk.new ≡ D.told disk.old }
    ensures same_folder { D.folder disk.new ≡ D.folder disk.old }
    ensures cause { BackfillHasCause (D.fault_count disk.old) (D.fault_count disk.new) result }
{
    let head = match begin_log(disk, wal) {
        Err(fault) => return Err(fault),
        Ok(head) => head,
    };
    let end = match disk.size(wal) {
        Err(fault) => return Err(BackfillFault::Disk(fault)),
        Ok(size) => size.unwrap_or(0),
    };
    if upto < HEADER_BYTES {
        return Err(BackfillFault::NotMark);
    }
    if end < upto {
        return Err(BackfillFault::NotMark);
    }
    find_at(alloc, disk, wal, head, upto)
}

/// The same of a log that has as many bytes, and this header.
fn find_at<D: Disk>(
    alloc: Global,
    disk: &mut D,
    wal: &str,
    head: WalHeader,
    upto: u64,
) -> Result<Found, BackfillFault>
    requires bound { (32 ≤ upto) × (upto < 2 ^ 63) }
    requires log { IfTold (D.told disk.old) (λ events. HasHeader (bytes_at events wal.now) head upto) }
    ensures found { IfOk result (λ found. IfTold (D.told disk.old) (λ events.
        IsFound (bytes_at events wal.now) upto found.scan.head found.pages found.mark found.is_last)) }
    ensures stands { IfOk result (λ found.
        (found.scan ≡ scanned_to found.scan.head found.mark) × (32 ≤ found.mark.end)) }
    ensures size { IfOk result (λ found. found.size ≡ found.scan.head.size) }
    ensures room { IfOk result (λ found. length found.buffer.items ≡ 65536) }
    ensures not_mark { IfTold (D.told disk.old) (λ events.
        IsErrOf result NotMark → NoneEnds (bytes_at events wal.now) upto) }
    ensures unchanged { D.told disk.new ≡ D.told disk.old }
    ensures same_folder { D.folder disk.new ≡ D.folder disk.old }
    ensures cause { BackfillHasCause (D.fault_count disk.old) (D.fault_count disk.new) result }
{
    let mut scan = Scan::begin(alloc, head)?;
    let mut pages = BTreeMap::new(alloc);
    let mut buffer = vec![in alloc; 0u8; BUFFER_BYTES]?;
    let size = head.size.get();
    match gather_on(
        disk,
        wal,
        &mut scan,
        &mut pages,
        size,
        upto,
        buffer.as_mut_slice(),
    ) {
        Err(fault) => return Err(fault),
        Ok(()) => {}
    }
    let Some(mark) = scan.last() else {
        return Err(BackfillFault::NotMark);
    };
    if mark.end != upto {
        return Err(BackfillFault::NotMark);
    }
    let newer = match newer_mark(disk, wal, &mut scan, upto, buffer.as_mut_slice()) {
        Err(fault) => return Err(BackfillFault::Disk(fault)),
        Ok(newer) => newer,
    };
    scan.back(&mark);
    Ok(Found {
        scan,
        pages,
        mark,
        size: head.size,
        is_last: newer.is_none(),
        buffer,
    })
}
