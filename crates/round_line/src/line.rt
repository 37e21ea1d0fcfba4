//! The line of a round.

ghost use Rattle.std.specs.Prelude.{◌≡◌, ◌≤◌, ◌++◌, length, codes, decimal};
ghost use Rattle.round_line.specs.RoundText.{counts_text, round_text, synced_text, truth_text};

use crate::round::{Round, Synced};
use arrayvec::ArrayVec;
use itoa::Buffer;
use replica_store::write_name;

/// Room for the longest line of a round, in bytes: 37 of words and spaces, 5 of the longest word for a sync, 43 of a
/// name, a truth value, two numbers of up to 10 digits, two of up to 20, and the line's end.
pub const ROUND_LINE_BYTES: usize = 149;

/// Room for what was stored, in bytes.
const SYNCED_BYTES: usize = 49;

/// Room for the counts, in bytes.
const COUNTS_BYTES: usize = 82;

/// What was stored, and under which name.
fn synced_text(sync: &Synced) -> ArrayVec<u8, SYNCED_BYTES>
    ensures value { result.items ≡ synced_text sync.now }
    ensures short { length result.items ≤ 49 }
{
    let mut text = ArrayVec::new();
    text.try_extend_from_slice(sync.word().as_bytes()).unwrap();
    text.try_extend_from_slice(b" ").unwrap();
    match sync.name() {
        Some(name) => text
            .try_extend_from_slice(write_name(name).as_str().as_bytes())
            .unwrap(),
        None => text.try_extend_from_slice(b"-").unwrap(),
    }
    text
}

/// A truth value as a digit.
fn truth_text(holds: bool) -> &'static str
    ensures { result.now ≡ truth_text holds }
{
    if holds { "1" } else { "0" }
}

/// What else the round did, in numbers.
fn counts_text(round: &Round) -> ArrayVec<u8, COUNTS_BYTES>
    ensures value { result.items ≡ counts_text round.now }
    ensures short { length result.items ≤ 82 }
{
    let mut text = ArrayVec::new();
    let mut digits = Buffer::new();
    text.try_extend_from_slice(b" passed ").unwrap();
    text.try_extend_from_slice(truth_text(round.passed).as_bytes())
        .unwrap();
    text.try_extend_from_slice(b" merged ").unwrap();
    text.try_extend_from_slice(digits.format(round.merged).as_bytes())
        .unwrap();
    text.try_extend_from_slice(b" dropped ").unwrap();
    text.try_extend_from_slice(digits.format(round.dropped).as_bytes())
        .unwrap();
    text.try_extend_from_slice(b" lost ").unwrap();
    text.try_extend_from_slice(digits.format(round.lost).as_bytes())
        .unwrap();
    text
}

/// The line of the round with this number. Takes no memory.
pub fn round_line(number: u32, round: &Round) -> ArrayVec<u8, ROUND_LINE_BYTES>
    ensures { result.items ≡ round_text number round.now }
{
    let mut line = ArrayVec::new();
    let mut digits = Buffer::new();
    line.try_extend_from_slice(b"round ").unwrap();
    line.try_extend_from_slice(digits.format(number).as_bytes())
        .unwrap();
    line.try_extend_from_slice(b" ").unwrap();
    line.try_extend_from_slice(synced_text(&round.sync).as_slice())
        .unwrap();
    line.try_extend_from_slice(counts_text(round).as_slice())
        .unwrap();
    line.try_extend_from_slice(b"\n").unwrap();
    line
}
