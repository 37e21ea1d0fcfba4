//! Bytes behind the last mark.

ghost use Rattle.std.specs.Prelude.{◌≡◌, OnOk, OnErr};
ghost use Rattle.sim_writer.specs.Loose.{PutsLoose, loose_from};
ghost use Rattle.sim_writer.specs.Sound.{IsSound};

use crate::machine::Machine;
use ls_base::Memory;

/// The length of a log's header in bytes.
const HEADER_BYTES: usize = 32;

impl Machine {
    /// Puts bytes behind the committed part, or behind the header where there is no mark, over those that stood
    /// there. `Memory` for want of it, and nothing
    /// has changed then.
    pub(crate) fn put_loose(&mut self, bytes: &[u8]) -> Result<(), Memory>
        requires sound { IsSound self.old }
        ensures ok { OnOk result (PutsLoose bytes.now self.old self.new) }
        ensures sound { IsSound self.new }
        ensures err { OnErr result (self.new ≡ self.old) }
    {
        let had = self.tail.as_slice().len();
        let at = self.over + self.loose_from();
        let end = at + bytes.len();
        self.tail.resize(had.max(end))?;
        self.tail.overwrite(at, bytes);
        Ok(())
    }

    /// Where loose bytes are put, from the last mark on.
    fn loose_from(&self) -> usize
        ensures { result ≡ loose_from self.now.headed self.now.committed }
    {
        if self.headed && self.committed.as_slice().is_empty() {
            return HEADER_BYTES;
        }
        0
    }
}
