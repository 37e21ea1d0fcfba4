//! Where a page stands in a log.

ghost use Rattle.std.specs.Prelude.{◌≡◌, ◌≤◌, ◌-◌, min};
ghost use Rattle.wal_follow.specs.Offset.{offset_limit};

use std::marker::Model;

/// The greatest offset: that of a page behind fewer than 2^63 bytes of frames.
const OFFSET_LIMIT: u64 = (1 << 63) + 32;

/// The offset of a page in a log, in bytes from its start, far from the greatest number.
#[derive(Clone, Copy, Debug)]
pub(crate) struct Offset {
    bytes: u64,
}

impl Model for Offset {
    ghost use Rattle.std.specs.Prelude.{ℕ, ◌≤◌};
    ghost use Rattle.wal_follow.specs.Offset.{offset_limit};

    ghost Value = { ℕ };

    ghost view = { λ offset. offset.bytes };

    ghost invariant = { λ offset. offset.bytes ≤ offset_limit };

    ghost inverse = { λ n. record { bytes = n } };
}

impl Offset {
    /// That of the page of a frame by the frame's end.
    pub(crate) fn of_page(end: u64, size: u64) -> Offset
        ensures { result ≡ min (end - size) offset_limit }
    {
        Offset {
            bytes: end.saturating_sub(size).min(OFFSET_LIMIT),
        }
    }

    /// The offset in bytes.
    pub(crate) fn get(&self) -> u64
        ensures value { result ≡ self.now }
        ensures bound { self.now ≤ offset_limit }
    {
        self.bytes
    }
}
