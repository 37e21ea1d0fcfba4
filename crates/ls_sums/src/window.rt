//! The register of the check over long input, 64 words at a time.
//!
//! Squared six times, the rule of the polynomial says that x^4096 is x^256 + x^192 + x^64 + 1. So a word
//! can be moved to the places 60, 61, 63 and 64 words later, and the register behind the message stays
//! the same. A ring of 64 words holds what is yet to be moved. Unlike the steps of the register, most of
//! these moves don't wait for one another.

ghost use Rattle.std.specs.Prelude.{◌≡◌, ◌≤◌, ℕ, length, slice_index, flat_map};
ghost use Rattle.std.specs.List.{concat};
ghost use Rattle.ls_sums.specs.Crc64.{after_bytes};
ghost use Rattle.ls_sums.specs.Window.{Holds, IsWord};

use crate::word::{after_word, after_words};

/// The words of the ring.
const RING_WORDS: usize = 64;
/// The words from which on the ring is worth its start and end.
const LONG_WORDS: usize = 128;

/// The register after the words.
pub(crate) fn after_all(register: u64, words: &[[u8; 8]]) -> u64
    ensures { result ≡ after_bytes register (concat words.now) }
{
    if words.len() < LONG_WORDS {
        return after_words(register, words);
    }
    after_many(register, words)
}

/// The register after the words, of which there are 64 at least.
fn after_many(register: u64, words: &[[u8; 8]]) -> u64
    requires { 64 ≤ length words.now }
    ensures { result ≡ after_bytes register (concat words.now) }
{
    let (front, last) = words.split_at(words.len() - RING_WORDS);
    let (others, blocks) = front.as_rchunks::<64>();
    let mut ring = ring_of(after_words(register, others));
    take_blocks(&mut ring, blocks);
    last_block(&ring, last)
}

/// A ring that holds this register.
fn ring_of(register: u64) -> [u64; 64]
    ensures { Holds result register }
{
    let mut ring = [0; RING_WORDS];
    ring[0] = register;
    ring
}

/// Takes the blocks into the ring.
fn take_blocks(ring: &mut [u64], blocks: &[[[u8; 8]; 64]])
    requires { length ring.old ≡ 64 }
    ensures { (register : ℕ) → Holds ring.old register
        → Holds ring.new (after_bytes register (flat_map concat blocks.now)) }
{
    for block in blocks {
        take_block(ring, block);
    }
}

/// Takes a block of 64 words into the ring.
fn take_block(ring: &mut [u64], words: &[[u8; 8]])
    requires ring { length ring.old ≡ 64 }
    requires block { length words.now ≡ 64 }
    ensures { (register : ℕ) → Holds ring.old register → Holds ring.new (after_bytes register (concat words.now)) }
{
    for at in 0..60 {
        let moved = (ring[at + 4] ^ ring[at + 3]) ^ (ring[at + 1] ^ ring[at]);
        ring[at] = word_of(words[at]) ^ moved;
    }
    for at in 60..RING_WORDS {
        let moved = (ring[(at + 4) % RING_WORDS] ^ ring[(at + 3) % RING_WORDS])
            ^ (ring[(at + 1) % RING_WORDS] ^ ring[at]);
        ring[at] = word_of(words[at]) ^ moved;
    }
}

/// The register after the ring and a last block of 64 words.
fn last_block(ring: &[u64], words: &[[u8; 8]]) -> u64
    requires ring { length ring.now ≡ 64 }
    requires block { length words.now ≡ 64 }
    ensures { (register : ℕ) → Holds ring.now register → result ≡ after_bytes register (concat words.now) }
{
    let mut after = 0;
    for at in 0..RING_WORDS {
        let moved = (word_at(ring, at + 4) ^ word_at(ring, at + 3))
            ^ (word_at(ring, at + 1) ^ word_at(ring, at));
        after = after_word(after, word_of(words[at]) ^ moved);
    }
    after
}

/// The word at this place of the ring, 0 behind its end.
fn word_at(ring: &[u64], at: usize) -> u64
    ensures { result ≡ slice_index ring.now at }
{
    ring.get(at).copied().unwrap_or(0)
}

/// The word of eight bytes, the lowest first.
fn word_of(bytes: [u8; 8]) -> u64
    ensures { IsWord bytes result }
{
    u64::from_le_bytes(bytes)
}
