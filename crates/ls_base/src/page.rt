//! One page.

ghost use Rattle.std.specs.Prelude.{◌≡◌, replicate, IfOk};
ghost use Rattle.std.specs.Borrow.{sem};

use crate::memory::Memory;
use crate::page_size::PageSize;
use std::alloc::Global;
use std::marker::Model;

/// One page of a database, as its bytes.
#[derive(Debug, Drop)]
pub struct Page {
    bytes: Vec<u8>,
}

impl Model for Page {
    ghost use Rattle.std.specs.Prelude.{ℕ, List};

    ghost Value = { List ℕ };

    ghost view = { λ page. page.bytes.items };
}

impl Page {
    ghost use Rattle.ls_base.specs.Page.{LendsBytes};

    /// A page of `size` bytes, each 0. `Memory` for want of it.
    pub fn zeroed(alloc: Global, size: PageSize) -> Result<Page, Memory>
        ensures { IfOk result (λ page. page ≡ replicate size 0) }
    {
        let bytes = vec![in alloc; 0u8; size.get() as usize]?;
        Ok(Page { bytes })
    }

    /// A page with a copy of these bytes. `Memory` for want of it.
    pub fn copied(alloc: Global, bytes: &[u8]) -> Result<Page, Memory>
        ensures { IfOk result (λ page. page ≡ bytes.now) }
    {
        let bytes = Vec::from_slice(alloc, bytes)?;
        Ok(Page { bytes })
    }

    /// The bytes, lent.
    pub fn bytes(&self) -> &[u8]
        ensures { result.now ≡ self.now }
    {
        self.bytes.as_slice()
    }

    /// The bytes, lent to be written: what stands in the slice last is the page. Its length stays.
    pub fn bytes_mut(&mut self) -> &mut [u8]
        ensures* writes_back { sem 𝓛 (LendsBytes self.entry result) }
        ensures value { result.now ≡ self.old }
    {
        self.bytes.as_mut_slice()
    }
}
