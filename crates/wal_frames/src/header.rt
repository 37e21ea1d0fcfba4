//! The header of a log.

ghost use Rattle.std.specs.Prelude.{◌≡◌, ◌≤◌, length, take, Some, Ok, IfOk};
ghost use Rattle.wal_frames.specs.WalFormat as spec;
ghost use Rattle.wal_frames.specs.WalFormat.{HasSums, HasFields, FitsFront};

use crate::fault::WalHeaderFault;
use crate::field::{field_at, put_number};
use ls_base::PageSize;
use ls_sums::{Order, WalSum};

/// The length of a log's header in bytes.
pub(crate) const HEADER_BYTES: usize = 32;
/// How many bytes of the header its sums are over.
const SUMMED_BYTES: usize = 24;
/// The magic of a log whose sums read words with the lowest byte first.
const LITTLE_MAGIC: u32 = 0x377f_0682;
/// The magic of a log whose sums read words with the highest byte first.
const BIG_MAGIC: u32 = 0x377f_0683;
/// The version of the format.
const VERSION: u32 = 3_007_000;

/// What the header of a log says (SQLite database file format, section 4.1).
#[derive(Clone, Copy, Debug, PartialEq, Eq)]
pub struct WalHeader {
    /// The order in which the sums read the bytes of a word.
    pub order: Order,
    /// The size of the database's pages in bytes.
    pub size: PageSize,
    /// The number of the checkpoint.
    pub seq: u32,
    /// The first salt.
    pub salt1: u32,
    /// The second salt.
    pub salt2: u32,
    /// The first sum over the 24 bytes before it.
    pub s0: u32,
    /// The second sum over the same bytes.
    pub s1: u32,
}

impl WalHeader {
    /// The header of a log with these fields, and with its sums. Takes no memory.
    pub fn new(order: Order, size: PageSize, seq: u32, salt1: u32, salt2: u32) -> WalHeader
        ensures fields { HasFields result order size seq salt1 salt2 }
        ensures sums { HasSums result }
    {
        let head = WalHeader {
            order,
            size,
            seq,
            salt1,
            salt2,
            s0: 0,
            s1: 0,
        };
        let sums = front_sums(&head);
        WalHeader {
            order,
            size,
            seq,
            salt1,
            salt2,
            s0: sums.s0,
            s1: sums.s1,
        }
    }
}

/// The sums of what stands before the sums of a header.
#[tactic(auto, unfolding(crate::specs::WalFormat::sums_of))]
fn front_sums(head: &WalHeader) -> WalSum
    ensures { result ≡ spec.sums_of head.now.order (spec.header_front head.now) }
{
    let mut bytes = [0; HEADER_BYTES];
    put_front(head, &mut bytes);
    WalSum::start().over(head.order, &bytes[..SUMMED_BYTES])
}

/// The header with which the bytes of a log begin.
///
/// The tests come in the order of the variants of `WalHeaderFault`, and the first that fails is the answer.
#[tactic(auto, unfolding(crate::specs::WalFormat::read_header))]
pub fn read_wal_header(bytes: &[u8]) -> Result<WalHeader, WalHeaderFault>
    ensures value { result ≡ spec.read_header bytes.now }
    ensures sums { IfOk result HasSums }
{
    if bytes.len() < HEADER_BYTES {
        return Err(WalHeaderFault::Short);
    }
    match order_of(field_at(bytes, 0)) {
        Some(order) => read_behind_magic(order, bytes),
        None => Err(WalHeaderFault::BadMagic),
    }
}

/// The header whose magic names this order of words.
fn read_behind_magic(order: Order, bytes: &[u8]) -> Result<WalHeader, WalHeaderFault>
    requires { 32 ≤ length bytes.now }
    ensures { result ≡ spec.read_behind_magic (Some order) bytes.now }
{
    if field_at(bytes, 4) != VERSION {
        return Err(WalHeaderFault::BadVersion);
    }
    let Some(size) = PageSize::from_u32(field_at(bytes, 8)) else {
        return Err(WalHeaderFault::BadSize);
    };
    if !has_sums(order, bytes) {
        return Err(WalHeaderFault::BadSum);
    }
    Ok(WalHeader {
        order,
        size,
        seq: field_at(bytes, 12),
        salt1: field_at(bytes, 16),
        salt2: field_at(bytes, 20),
        s0: field_at(bytes, 24),
        s1: field_at(bytes, 28),
    })
}

/// Whether the stored sums of a header are those of the bytes before them.
#[tactic(auto, unfolding(crate::specs::WalFormat::sums_of))]
fn has_sums(order: Order, bytes: &[u8]) -> bool
    requires { 32 ≤ length bytes.now }
    ensures { result ≡ spec.are_same (spec.sums_of order (take 24 bytes.now)) (spec.sums_at bytes.now 24) }
{
    let sums = WalSum::start().over(order, &bytes[..SUMMED_BYTES]);
    sums.s0 == field_at(bytes, 24) && sums.s1 == field_at(bytes, 28)
}

/// The order of words that the magic names, if it is one.
fn order_of(magic: u32) -> Option<Order>
    ensures { result ≡ spec.order_of magic }
{
    match magic {
        LITTLE_MAGIC => Some(Order::Little),
        BIG_MAGIC => Some(Order::Big),
        _ => None,
    }
}

/// The magic that names the order of words.
fn magic_of(order: Order) -> u32
    ensures { result ≡ spec.magic order }
{
    match order {
        Order::Little => LITTLE_MAGIC,
        Order::Big => BIG_MAGIC,
    }
}

/// Writes the header of a log, whose sums are those of what stands before them.
pub fn write_wal_header(head: &WalHeader, into: &mut [u8; 32])
    requires { HasSums head.now }
    ensures bytes { into.new ≡ spec.wal_header_bytes head.now }
    ensures reads_back { spec.read_header into.new ≡ Ok head.now }
{
    put_front(head, into);
    put_number(into, 24, head.s0);
    put_number(into, 28, head.s1);
}

/// Writes what stands before the sums of a header.
fn put_front(head: &WalHeader, into: &mut [u8])
    requires { 32 ≤ length into.old }
    ensures bytes { take 24 into.new ≡ spec.header_front head.now }
    ensures fits { FitsFront head.now }
{
    put_number(into, 0, magic_of(head.order));
    put_number(into, 4, VERSION);
    put_number(into, 8, head.size.get());
    put_number(into, 12, head.seq);
    put_number(into, 16, head.salt1);
    put_number(into, 20, head.salt2);
}
