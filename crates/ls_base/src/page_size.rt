//! The size of a database's pages.

ghost use Rattle.std.specs.Prelude.{◌≡◌, IsTrue};
ghost use Rattle.std.specs.Option.{SomeIff};
ghost use Rattle.ls_base.specs.PageSize.{IsPageSize, is_page_size, lock_page};

use std::marker::Model;

/// The offset in bytes at which the lock page begins.
const LOCK_BYTE: u32 = 1 << 30;

const PAGE_SIZES: [u32; 8] = [512, 1024, 2048, 4096, 8192, 16384, 32768, 65536];

/// A page size in bytes: a power of two from 512 to 65536 (SQLite database file format, section
/// 1.3.2).
#[derive(Clone, Copy, Debug, PartialEq, Eq)]
pub struct PageSize {
    bytes: u32,
}

impl Model for PageSize {
    ghost use Rattle.std.specs.Prelude.{ℕ, IsTrue};
    ghost use Rattle.ls_base.specs.PageSize.{is_page_size};

    ghost Value = { ℕ };

    ghost view = { λ size. size.bytes };

    ghost invariant = { λ size. IsTrue (is_page_size size.bytes) };

    ghost inverse = { λ n. record { bytes = n } };
}

impl PageSize {
    /// The page size of `n` bytes. `None` exactly where `n` isn't a power of two from 512 to 65536.
    pub fn from_u32(n: u32) -> Option<PageSize>
        ensures { SomeIff result (IsPageSize n) n }
    {
        if PAGE_SIZES.contains(&n) {
            return Some(PageSize { bytes: n });
        }
        None
    }

    /// The size in bytes.
    pub fn get(&self) -> u32
        ensures value { result ≡ self.now }
        ensures valid { IsPageSize self.now }
    {
        self.bytes
    }

    /// The number of the lock page, counted from 1: the page that holds the byte at offset 2^30. SQLite
    /// never uses that page (SQLite database file format, section 1.6).
    pub fn lock_page(&self) -> u32
        ensures { result ≡ lock_page self.now }
    {
        LOCK_BYTE / self.bytes + 1
    }
}
