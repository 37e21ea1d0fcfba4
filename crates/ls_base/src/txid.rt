//! Transaction numbers, and their text in hexadecimal digits.

ghost use Rattle.std.specs.Prelude.{◌≡◌, ◌<◌};
ghost use Rattle.std.specs.Option.{SomeIff};
ghost use Rattle.std.specs.Str.Parse.{digits_value};
ghost use Rattle.ls_base.specs.Txid.{hex_digits, IsTxidText, txid_of};

use std::marker::Model;

/// A transaction number. They count the syncs that stored a file, from 1, so it is never 0.
#[derive(Clone, Copy, Debug, PartialEq, Eq, PartialOrd, Ord)]
pub struct Txid {
    number: u64,
}

impl Model for Txid {
    ghost use Rattle.std.specs.Prelude.{ℕ, ◌<◌};

    ghost Value = { ℕ };

    ghost view = { λ txid. txid.number };

    ghost invariant = { λ txid. 0 < txid.number };

    ghost inverse = { λ n. record { number = n } };
}

impl Txid {
    /// The transaction of this number. `None` exactly for 0.
    pub fn new(n: u64) -> Option<Txid>
        ensures { SomeIff result (0 < n) n }
    {
        if n == 0 {
            return None;
        }
        Some(Txid { number: n })
    }

    /// The number, never 0.
    pub fn number(&self) -> u64
        ensures value { result ≡ self.now }
        ensures positive { 0 < self.now }
    {
        self.number
    }

    /// The number as 16 lower-case hexadecimal digits, the highest first.
    pub fn digits(&self) -> [u8; 16]
        ensures value { result ≡ hex_digits self.now }
        ensures reads_back { digits_value 16 result ≡ self.now }
    {
        let number = self.number;
        let mut digits = [0u8; 16];
        for i in 0..16 {
            let digit = ((number >> (4 * (15 - i))) % 16) as u8;
            digits[i] = if digit < 10 {
                b'0' + digit
            } else {
                b'a' + (digit - 10)
            };
        }
        digits
    }

    /// The transaction that the text writes: 1 to 16 hexadecimal digits of either case. `None` exactly
    /// for any other text, and for the value 0.
    pub fn from_hex(text: &str) -> Option<Txid>
        ensures found { SomeIff result (IsTxidText text.now) (digits_value 16 text.now) }
        ensures value { result ≡ txid_of text.now }
    {
        if text.len() > 16 || text.starts_with('+') {
            return None;
        }
        let number = u64::from_str_radix(text, 16).ok()?;
        Txid::new(number)
    }
}
