//! The generator.

ghost use Rattle.std.specs.Prelude.{◌≡◌, ◌<◌};
ghost use Rattle.demo_draws.specs.Generator.{advanced, drawn};

use std::marker::Model;

/// The factor of a step.
const MULTIPLIER: u64 = 6364136223846793005;

/// What a step adds.
const INCREMENT: u64 = 1442695040888963407;

/// A generator of numbers. A contract sees the last number that it gave, and at first the seed.
#[derive(Clone, Copy, Debug, PartialEq)]
pub struct Draws {
    last: u64,
}

impl Model for Draws {
    ghost use Rattle.std.specs.Prelude.{ℕ};

    ghost Value = { ℕ };

    ghost view = { λ draws. draws.last };

    ghost inverse = { λ n. record { last = n } };
}

impl Draws {
    /// A generator that starts from the seed.
    pub fn new(seed: u64) -> Draws
        ensures { result ≡ seed }
    {
        Draws { last: seed }
    }

    /// The next number, of 64 bits.
    pub fn next(&mut self) -> u64
        ensures value { result ≡ advanced self.old }
        ensures state { self.new ≡ advanced self.old }
    {
        self.last = self.last.wrapping_mul(MULTIPLIER).wrapping_add(INCREMENT);
        self.last
    }

    /// A number below the bound, from the high bits of the next number.
    pub fn below(&mut self, bound: u32) -> u32
        requires positive { 0 < bound }
        ensures value { result ≡ drawn self.old bound }
        ensures below { result < bound }
        ensures state { self.new ≡ advanced self.old }
    {
        ((self.next() >> 33) % u64::from(bound)) as u32
    }
}
