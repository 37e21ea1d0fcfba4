//! The checksum of a log.

ghost use Rattle.std.specs.Prelude.{◌≡◌, ◌%◌, length};
ghost use Rattle.std.specs.List.{concat};
ghost use Rattle.ls_sums.specs.declared.order.Order.TheVariants as order_of;
ghost use Rattle.ls_sums.specs.WalSum as spec;
ghost use Rattle.ls_sums.specs.WalSum.{words, after_words};

use crate::order::Order;

/// The two running sums of a log.
#[derive(Clone, Copy, Debug, PartialEq, Eq)]
pub struct WalSum {
    /// The first sum.
    pub s0: u32,
    /// The second sum.
    pub s1: u32,
}

impl WalSum {
    /// The sums of no bytes, both 0.
    pub fn start() -> WalSum
        ensures { result ≡ record { s0 = 0; s1 = 0 } }
    {
        WalSum { s0: 0, s1: 0 }
    }

    /// The sums after the bytes, which are read as words of four bytes in this order. The bytes may be
    /// cut into pieces, each of a length that is a multiple of 8.
    pub fn over(self, order: Order, bytes: &[u8]) -> WalSum
        requires { length bytes.now % 8 ≡ 0 }
        ensures { result ≡ after_words self (words order bytes.now) }
    {
        let (pairs, _) = bytes.as_chunks::<8>();
        match order {
            Order::Little => self.over_little(pairs),
            Order::Big => self.over_big(pairs),
        }
    }

    /// The sums after the pairs of words with the lowest byte first.
    fn over_little(self, pairs: &[[u8; 8]]) -> WalSum
        ensures { result ≡ after_words self (words order_of.Little (concat pairs.now)) }
    {
        let mut sum = self;
        for pair in pairs {
            let x = u32::from_le_bytes([pair[0], pair[1], pair[2], pair[3]]);
            let y = u32::from_le_bytes([pair[4], pair[5], pair[6], pair[7]]);
            sum = sum.after_pair(x, y);
        }
        sum
    }

    /// The sums after the pairs of words with the highest byte first.
    fn over_big(self, pairs: &[[u8; 8]]) -> WalSum
        ensures { result ≡ after_words self (words order_of.Big (concat pairs.now)) }
    {
        let mut sum = self;
        for pair in pairs {
            let x = u32::from_be_bytes([pair[0], pair[1], pair[2], pair[3]]);
            let y = u32::from_be_bytes([pair[4], pair[5], pair[6], pair[7]]);
            sum = sum.after_pair(x, y);
        }
        sum
    }

    /// The sums after two more words.
    fn after_pair(self, x: u32, y: u32) -> WalSum
        ensures { result ≡ spec.after_pair self x y }
    {
        let s0 = self.s0.wrapping_add(x).wrapping_add(self.s1);
        let s1 = self.s1.wrapping_add(y).wrapping_add(s0);
        WalSum { s0, s1 }
    }
}
