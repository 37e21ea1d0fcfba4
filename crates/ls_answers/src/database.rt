//! The texts of what refuses a database.

ghost use Rattle.std.specs.Prelude.{◌≡◌, ◌≤◌, ◌++◌, length, codes, decimal};
ghost use Rattle.ls_answers.specs.Refusal.{broken_text, header_text};

use crate::outcome::Broken;
use crate::reason::{Reason, plain};
use db_page::HeaderFault;
use itoa::Buffer;

/// What is wrong, and so many bytes.
pub fn bytes_of(what: &str, size: u64) -> Reason
    requires { length what.now ≤ 24 }
    ensures { result.items ≡ what.now ++ decimal size ++ codes " bytes" }
{
    let mut reason = plain(what);
    let mut digits = Buffer::new();
    reason
        .try_extend_from_slice(digits.format(size).as_bytes())
        .unwrap();
    reason.try_extend_from_slice(b" bytes").unwrap();
    reason
}

/// What is wrong, and at which number.
fn at_offset(what: &str, at: u64) -> Reason
    requires { length what.now ≤ 34 }
    ensures value { result.items ≡ what.now ++ decimal at }
    ensures short { length result.items ≤ 54 }
{
    let mut reason = plain(what);
    let mut digits = Buffer::new();
    reason
        .try_extend_from_slice(digits.format(at).as_bytes())
        .unwrap();
    reason
}

/// The versions of a database that isn't in WAL mode.
fn not_wal_mode(write: u8, read: u8) -> Reason
    ensures { result.items ≡
        codes "database header: not in WAL mode (" ++ decimal write ++ codes ", " ++ decimal read ++ codes ")" }
{
    let mut reason = at_offset("database header: not in WAL mode (", u64::from(write));
    let mut digits = Buffer::new();
    reason.try_extend_from_slice(b", ").unwrap();
    reason
        .try_extend_from_slice(digits.format(read).as_bytes())
        .unwrap();
    reason.try_extend_from_slice(b")").unwrap();
    reason
}

/// What is wrong with the header of a database file.
pub fn bad_header(fault: HeaderFault) -> Reason
    ensures { result.items ≡ codes "database header: " ++ header_text fault }
{
    match fault {
        HeaderFault::Short(bytes) => bytes_of("database header: ", bytes as u64),
        HeaderFault::NotDatabase => plain("database header: not a database"),
        HeaderFault::BadPageSize(field) => {
            at_offset("database header: page size field ", u64::from(field))
        }
        HeaderFault::NotWalMode { write, read } => not_wal_mode(write, read),
    }
}

/// The page sizes of a database file and of its log.
pub fn sizes_differ(db: u32, wal: u32) -> Reason
    ensures { result.items ≡ codes "page sizes differ: database " ++ decimal db ++ codes ", WAL " ++ decimal wal }
{
    let mut reason = at_offset("page sizes differ: database ", u64::from(db));
    let mut digits = Buffer::new();
    reason.try_extend_from_slice(b", WAL ").unwrap();
    reason
        .try_extend_from_slice(digits.format(wal).as_bytes())
        .unwrap();
    reason
}

/// How the gate was broken.
pub fn broken_gate(broken: Broken) -> Reason
    ensures { result.items ≡ codes "gate broken: " ++ broken_text broken }
{
    match broken {
        Broken::Salts { .. } => plain("gate broken: WAL salts changed"),
        Broken::Short { at } => at_offset("gate broken: WAL ends at ", at),
    }
}
