//! The texts of refusals other than those of words.

ghost use Rattle.std.specs.Prelude.{◌≡◌, ◌≤◌, ◌++◌, length, codes, decimal, option_map};
ghost use Rattle.ls_base.specs.Txid.{hex_digits};
ghost use Rattle.ls_answers.specs.Refusal.{damage_text, fault_text, name_text, reason_text};

use crate::database::{bad_header, broken_gate, bytes_of, sizes_differ};
use crate::outcome::Why;
use arrayvec::ArrayVec;
use itoa::Buffer;
use ls_base::Txid;
use ltx_format::LtxFault;
use replica_store::{Damage, FileName, write_name};

/// Room for the longest text of a refusal, in bytes.
pub const REASON_BYTES: usize = 96;

/// The text of a refusal.
pub type Reason = ArrayVec<u8, REASON_BYTES>;

/// Room for the longest text of a damage, in bytes: 18 and 10 digits.
const DAMAGE_BYTES: usize = 28;

/// The bytes of the text.
pub fn plain<const N: usize>(text: &str) -> ArrayVec<u8, N>
    requires { length text.now ≤ N }
    ensures { result.items ≡ text.now }
{
    let mut reason = ArrayVec::new();
    reason.try_extend_from_slice(text.as_bytes()).unwrap();
    reason
}

/// What is wrong, and at which number.
fn at_number(what: &str, number: u32) -> ArrayVec<u8, DAMAGE_BYTES>
    requires { length what.now ≤ 18 }
    ensures { result.items ≡ what.now ++ decimal number }
{
    let mut text = ArrayVec::new();
    let mut digits = Buffer::new();
    text.try_extend_from_slice(what.as_bytes()).unwrap();
    text.try_extend_from_slice(digits.format(number).as_bytes())
        .unwrap();
    text
}

/// What is wrong with the bytes of a file.
fn fault_text(fault: LtxFault) -> ArrayVec<u8, DAMAGE_BYTES>
    ensures { result.items ≡ fault_text fault }
{
    match fault {
        LtxFault::Short => plain("short"),
        LtxFault::BadMagic => plain("bad magic"),
        LtxFault::Compressed => plain("compressed"),
        LtxFault::BadFlags => plain("bad flags"),
        LtxFault::BadPageSize => plain("bad page size"),
        LtxFault::BadCommit => plain("bad commit"),
        LtxFault::BadRange => plain("bad range"),
        LtxFault::BadReserved => plain("bad reserved field"),
        LtxFault::BadOrder(number) => at_number("bad page order at ", number),
        LtxFault::BadSum { .. } => plain("bad checksum"),
        LtxFault::Extra => plain("extra bytes"),
        LtxFault::BadIndex(number) => at_number("bad index at ", number),
    }
}

/// What is wrong with a file.
fn damage_text(damage: Damage) -> ArrayVec<u8, DAMAGE_BYTES>
    ensures { result.items ≡ damage_text damage }
{
    match damage {
        Damage::File(fault) => fault_text(fault),
        Damage::NameDiffers => plain("name differs"),
        Damage::SizeDiffers => plain("page size differs"),
    }
}

/// The transaction in 16 digits, 0 for none.
fn digits_of(after: u64) -> [u8; 16]
    ensures { result ≡ hex_digits after }
{
    match Txid::new(after) {
        Some(txid) => txid.digits(),
        None => *b"0000000000000000",
    }
}

/// No chain of files leads behind this transaction, 0 for none at all.
fn missing_range(after: u64) -> Reason
    ensures { result.items ≡ codes "missing range after " ++ hex_digits after }
{
    let mut reason = ArrayVec::new();
    reason
        .try_extend_from_slice(b"missing range after ")
        .unwrap();
    reason.try_extend_from_slice(&digits_of(after)).unwrap();
    reason
}

/// The file has this damage.
fn damaged(name: &FileName, damage: Damage) -> Reason
    ensures { result.items ≡ codes "damaged " ++ name_text name.now ++ codes ": " ++ damage_text damage }
{
    let mut reason = ArrayVec::new();
    reason.try_extend_from_slice(b"damaged ").unwrap();
    reason
        .try_extend_from_slice(write_name(name).as_str().as_bytes())
        .unwrap();
    reason.try_extend_from_slice(b": ").unwrap();
    reason
        .try_extend_from_slice(damage_text(damage).as_slice())
        .unwrap();
    reason
}

/// The file lacks this page.
fn page_missing(name: &FileName, number: u32) -> Reason
    ensures { result.items ≡ codes "page " ++ decimal number ++ codes " missing in " ++ name_text name.now }
{
    let mut reason = ArrayVec::new();
    let mut digits = Buffer::new();
    reason.try_extend_from_slice(b"page ").unwrap();
    reason
        .try_extend_from_slice(digits.format(number).as_bytes())
        .unwrap();
    reason.try_extend_from_slice(b" missing in ").unwrap();
    reason
        .try_extend_from_slice(write_name(name).as_str().as_bytes())
        .unwrap();
    reason
}

/// What was refused and where. `None` where nothing was refused, and for bad words, whose text has a word in it.
pub fn reason_of(why: &Why) -> Option<Reason>
    ensures { option_map (λ reason. reason.items) result ≡ reason_text why.now }
{
    Some(match why {
        Why::Done | Why::SkippedOutput | Why::SkippedReplica | Why::Usage(_) => return None,
        Why::NotBuilt => plain("not built yet"),
        Why::NoDatabase => plain("no database"),
        Why::Header(fault) => bad_header(*fault),
        Why::SizesDiffer { db, wal } => sizes_differ(*db, *wal),
        Why::WalTooLong(size) => bytes_of("WAL too long: ", *size),
        Why::TooLarge(size) => bytes_of("database too large: ", *size),
        Why::GateBroken(broken) => broken_gate(*broken),
        Why::NoReplica => plain("no replica"),
        Why::MissingRange(after) => missing_range(*after),
        Why::NoMoment => plain("nothing kept at or before that moment"),
        Why::Damaged(name, damage) => damaged(name, *damage),
        Why::PageMissing(name, number) => page_missing(name, *number),
        Why::OutputExists(size) => bytes_of("output exists: ", *size),
        Why::TxidSpent => plain("no TXID left"),
        Why::LiveFault => plain("database fault"),
        Why::StoreFault => plain("replica fault"),
        Why::TargetFault => plain("output file fault"),
        Why::SinkFault => plain("output fault"),
        Why::Memory => plain("out of memory"),
    })
}
