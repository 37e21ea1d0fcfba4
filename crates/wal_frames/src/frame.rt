//! One frame of a log.

ghost use Rattle.std.specs.Prelude.{◌≡◌, ◌≢◌, ◌+◌, ◌%◌, ◌≤◌, ◌++◌, length, take, drop};
ghost use Rattle.wal_frames.specs.declared.frame.Frame.TheVariants.{Valid};
ghost use Rattle.wal_frames.specs.WalFrame as spec;

use crate::fault::NotValid;
use crate::field::{field_at, put_number};
use crate::header::WalHeader;
use ls_sums::{Order, WalSum};

/// The length of what stands before a frame's page, in bytes.
pub(crate) const FRAME_HEADER_BYTES: usize = 24;
/// How many bytes of it the sums are over.
const SUMMED_BYTES: usize = 8;

/// What a frame is.
#[derive(Clone, Copy, Debug, PartialEq, Eq)]
pub enum Frame {
    /// A valid frame.
    Valid {
        /// The number of its page, never 0.
        number: u32,
        /// The size of the database in pages after the commit, or 0 where the frame doesn't commit.
        commit: u32,
        /// The running sums up to and with this frame.
        sums: WalSum,
    },
    /// None, by the first test that fails.
    Not(NotValid),
}

/// Checks the frame under the log's header, where these are the running sums before it.
///
/// The tests come in the order of the variants of `NotValid`, and the first that fails is the answer.
pub fn check_frame(head: &WalHeader, sums: WalSum, bytes: &[u8]) -> Frame
    requires { length bytes.now ≡ spec.frame_length head.now }
    ensures value { result ≡ spec.checked head.now sums bytes.now }
{
    if field_at(bytes, 8) != head.salt1 || field_at(bytes, 12) != head.salt2 {
        return Frame::Not(NotValid::Salt);
    }
    let number = field_at(bytes, 0);
    if number == 0 {
        return Frame::Not(NotValid::Zero);
    }
    let end = FRAME_HEADER_BYTES + head.size.get() as usize;
    let sums = sums_over(
        head.order,
        sums,
        &bytes[..SUMMED_BYTES],
        &bytes[FRAME_HEADER_BYTES..end],
    );
    if sums.s0 != field_at(bytes, 16) || sums.s1 != field_at(bytes, 20) {
        return Frame::Not(NotValid::Sum);
    }
    Frame::Valid {
        number,
        commit: field_at(bytes, 4),
        sums,
    }
}

/// The sums after the front of a frame and its page.
#[tactic(auto, unfolding(crate::specs::WalFrame::sums_after))]
fn sums_over(order: Order, sums: WalSum, front: &[u8], page: &[u8]) -> WalSum
    requires front { length front.now ≡ 8 }
    requires page { length page.now % 8 ≡ 0 }
    ensures { result ≡ spec.sums_after order sums (front.now ++ page.now) }
{
    sums.over(order, front).over(order, page)
}

/// Writes the frame of a page of the log's page size, where these are the running sums before it. Answers
/// the running sums up to and with it.
pub fn write_frame(
    head: &WalHeader,
    sums: WalSum,
    number: u32,
    commit: u32,
    page: &[u8],
    into: &mut [u8],
) -> WalSum
    requires page { length page.now ≡ head.now.size }
    requires room { length into.old ≡ spec.frame_length head.now }
    ensures value { result ≡ spec.sums_after head.now.order sums (spec.frame_front number commit ++ page.now) }
    ensures bytes { into.new ≡ spec.frame_bytes head.now result number commit page.now }
    ensures valid { number ≢ 0 → spec.checked head.now sums into.new ≡ Valid number commit result }
{
    put_number(into, 0, number);
    put_number(into, 4, commit);
    let end = FRAME_HEADER_BYTES + head.size.get() as usize;
    let sums = sums_over(head.order, sums, &into[..SUMMED_BYTES], page);
    put_number(into, 8, head.salt1);
    put_number(into, 12, head.salt2);
    put_number(into, 16, sums.s0);
    put_number(into, 20, sums.s1);
    into[FRAME_HEADER_BYTES..end].copy_from_slice(page);
    sums
}
