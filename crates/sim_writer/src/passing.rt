//! Bytes that were read and pass for committed ones.

ghost use Rattle.std.specs.Prelude.{◌≡◌, ℕ, ◌+◌, ◌<◌, ◌^◌, ◌++◌, ◌≤◌, true, false, List, length, take, IfOk};
ghost use Rattle.live_gate.specs.LiveRecord.{IsPrefix};
ghost use Rattle.wal_frames.specs.Marks.{last_mark_of};
ghost use Rattle.wal_frames.specs.Scanned.{HasTaken};
ghost use Rattle.sim_writer.specs.Passing.{IsCommittedToMark, IsReadFrom};

use crate::rest::rest_from;
use ls_base::{Bytes, Mark, Memory};
use std::alloc::Global;
use wal_frames::{Fed, Scan, read_wal_header};

/// The length of a log's header in bytes.
const HEADER_BYTES: usize = 32;

/// Whether what was read passes for committed bytes by chance: the committed bytes before the aim and those
/// answered since have a last mark, up to which they aren't committed.
pub(crate) fn passes_by_chance(
    alloc: Global,
    committed: &[u8],
    aimed: u64,
    answered: &[u8],
    got: &[u8],
) -> Result<bool, Memory>
    ensures some { IfOk result (λ passes. passes ≡ true
        → IsReadFrom committed.now aimed (answered.now ++ got.now) → ⊥) }
    ensures none { IfOk result (λ passes. passes ≡ false → IsReadFrom committed.now aimed (answered.now ++ got.now)) }
{
    if aimed > committed.len() as u64 {
        return Ok(false);
    }
    let (front, rest) = committed.split_at(aimed as usize);
    if begins_with_both(rest, answered, got) {
        return Ok(false);
    }
    let mut read = Bytes::new(alloc);
    read.extend(front)?;
    read.extend(answered)?;
    read.extend(got)?;
    differs_to_mark(alloc, committed, read.as_slice())
}

/// Whether the bytes have a last mark, up to which they aren't committed.
fn differs_to_mark(alloc: Global, committed: &[u8], read: &[u8]) -> Result<bool, Memory>
    ensures some { IfOk result (λ differs. differs ≡ true → IsCommittedToMark committed.now read.now → ⊥) }
    ensures none { IfOk result (λ differs. differs ≡ false → IsCommittedToMark committed.now read.now) }
{
    let Some(mark) = last_mark(alloc, read)? else {
        return Ok(false);
    };
    Ok(!begins_with(committed, front_of(read, mark.end)))
}

/// The bytes up to the offset.
fn front_of(bytes: &[u8], end: u64) -> &[u8]
    ensures { result.now ≡ take end bytes.now }
{
    let end = (end as usize).min(bytes.len());
    &bytes[..end]
}

/// Whether the bytes begin with one list and then the other.
fn begins_with_both(bytes: &[u8], first: &[u8], second: &[u8]) -> bool
    ensures { result ≡ true → IsPrefix (first.now ++ second.now) bytes.now }
{
    begins_with(bytes, first) && begins_with(rest_from(bytes, first.len() as u64), second)
}

/// Whether the bytes begin with these.
fn begins_with(bytes: &[u8], front: &[u8]) -> bool
    ensures some { result ≡ true → IsPrefix front.now bytes.now }
    ensures none { result ≡ false → IsPrefix front.now bytes.now → ⊥ }
{
    front.len() <= bytes.len() && is_front(bytes, front)
}

/// The same where the bytes are as many.
fn is_front(bytes: &[u8], front: &[u8]) -> bool
    requires { length front.now ≤ length bytes.now }
    ensures some { result ≡ true → take (length front.now) bytes.now ≡ front.now }
    ensures none { result ≡ false → take (length front.now) bytes.now ≡ front.now → ⊥ }
{
    &bytes[..front.len()] == front
}

/// The last mark of a log, by a scan of its own.
fn last_mark(alloc: Global, log: &[u8]) -> Result<Option<Mark>, Memory>
    ensures { IfOk result (λ mark. mark ≡ last_mark_of log.now) }
{
    let Ok(head) = read_wal_header(log) else {
        return Ok(None);
    };
    let mut scan = Scan::begin(alloc, head)?;
    feed_all(&mut scan, rest_from(log, HEADER_BYTES as u64));
    Ok(scan.last())
}

/// Feeds all bytes to the scan.
fn feed_all(scan: &mut Scan, bytes: &[u8])
    requires { scan.old.taken + length bytes.now < 2 ^ 63 }
    ensures { (log : List ℕ) → HasTaken scan.old log → HasTaken scan.new (log ++ bytes.now) }
{
    let mut rest = bytes;
    while let Fed::Frame { taken, .. } = scan.feed(rest) {
        rest = &rest[taken..];
    }
}
