//! The 64-bit cyclic redundancy check of ISO 3309.

ghost use Rattle.std.specs.Prelude.{◌≡◌, ℕ, List, ◌++◌, bit_xor};
ghost use Rattle.ls_sums.specs.Crc64.{all_ones, after_bytes, crc64, IsBehind};

use crate::window::after_all;
use crate::word::after_each;
use std::marker::Model;

/// The check of the bytes given so far, as Go's `crc64.ISO` computes it.
#[derive(Clone, Copy, Debug, PartialEq, Eq)]
pub struct Crc64 {
    register: u64,
}

impl Model for Crc64 {
    ghost use Rattle.std.specs.Prelude.{ℕ};

    ghost Value = { ℕ };

    ghost view = { λ check. check.register };

    ghost inverse = { λ n. record { register = n } };
}

impl Crc64 {
    /// The check of no bytes.
    pub fn new() -> Crc64
        ensures { result ≡ all_ones }
    {
        Crc64 { register: u64::MAX }
    }

    /// Takes the bytes in, behind those that were given before.
    pub fn over(&mut self, bytes: &[u8])
        ensures value { self.new ≡ after_bytes self.old bytes.now }
        ensures behind { (before : List ℕ) → IsBehind before self.old → IsBehind (before ++ bytes.now) self.new }
    {
        self.register = after_slice(self.register, bytes);
    }

    /// The check of all bytes given so far. More may follow.
    pub fn finish(&self) -> u64
        ensures value { result ≡ bit_xor self.now all_ones }
        ensures behind { (bytes : List ℕ) → IsBehind bytes self.now → result ≡ crc64 bytes }
    {
        self.register ^ u64::MAX
    }
}

/// The register after the bytes.
fn after_slice(register: u64, bytes: &[u8]) -> u64
    ensures { result ≡ after_bytes register bytes.now }
{
    let (words, rest) = bytes.as_chunks::<8>();
    after_each(after_all(register, words), rest)
}
