//! Frames copied into the database file.

ghost use Rattle.std.specs.Prelude.{◌≡◌, ℕ, true, false, None, IfOk, IfSome, OnErr};
ghost use Rattle.std.specs.Prelude.{◌↔◌, ◌≤◌, Some, IsTrue};
ghost use Rattle.checkpointer.specs.PairState.{bytes_at};
ghost use Rattle.sim_writer.specs.Copying.{CanBackfill, CopiesTo, Backfills};
ghost use Rattle.sim_writer.specs.Sound.{IsSound};

use crate::machine::Machine;
use checkpointer::backfill;
use crash_disk::{Disk, MemDisk};
use ls_base::{Bytes, Memory, Place};
use std::alloc::Global;

/// The names of the two files while frames are copied.
const DATABASE: &str = "db";

const LOG: &str = "wal";

impl Machine {
    /// Copies the frames up to the mark of this number, from 1, where that may be. `false` where it may not.
    /// `Memory` for want of it. Nothing has changed in either case.
    pub(crate) fn backfill(&mut self, alloc: Global, number: u32) -> Result<bool, Memory>
        requires sound { IsSound self.old }
        ensures done { IfOk result (λ done.
            done ≡ true → CanBackfill number self.old × Backfills number self.old self.new) }
        ensures not { IfOk result (λ done. done ≡ false → (CanBackfill number self.old → ⊥) × (self.new ≡ self.old)) }
        ensures sound { IsSound self.new }
        ensures err { OnErr result (self.new ≡ self.old) }
    {
        let Some(end) = self.end_to_copy(number) else {
            return Ok(false);
        };
        let file = copied_file(alloc, self.file.as_slice(), self.committed.as_slice(), end)?;
        self.file = file;
        self.copied = end;
        Ok(true)
    }

    /// The end of the mark of this number, where copying to it may be.
    fn end_to_copy(&self, number: u32) -> Option<u64>
        requires sound { IsSound self.now }
        ensures some { IfSome result (λ end. (can : CanBackfill number self.now) × (can.mark.end ≡ end)) }
        ensures none { result ≡ None → CanBackfill number self.now → ⊥ }
    {
        if number == 0 {
            return None;
        }
        let entry = self.entry_of(number)?;
        let Place::Wal { end, .. } = entry.place else {
            unreachable!()
        };
        if self.copied < end && self.is_held_from(end) {
            return Some(end);
        }
        None
    }

    /// Whether the gate, where it is held, is held at or past the offset.
    fn is_held_from(&self, end: u64) -> bool
        ensures { IsTrue result ↔ ((held : ℕ) → self.now.held ≡ Some held → end ≤ held) }
    {
        match self.held {
            Some(held) => end <= held,
            None => true,
        }
    }
}

/// The database file, with the frames of the log up to the mark that ends at the offset copied into it.
pub(crate) fn copied_file(
    alloc: Global,
    file: &[u8],
    log: &[u8],
    upto: u64,
) -> Result<Bytes, Memory>
    ensures { IfOk result (λ now. CopiesTo upto file.now log.now now) }
{
    let mut disk = MemDisk::new(alloc);
    disk.put_file(DATABASE, file)?;
    disk.put_file(LOG, log)?;
    match backfill(alloc, &mut disk, DATABASE, LOG, upto) {
        Ok(_) => read_file(alloc, &mut disk, DATABASE),
        Err(_) => Err(Memory),
    }
}

/// The bytes of a file.
fn read_file(alloc: Global, disk: &mut MemDisk, name: &str) -> Result<Bytes, Memory>
    ensures { IfOk result (λ bytes. bytes ≡ bytes_at disk.old.events name.now) }
{
    let size = match disk.size(name) {
        Ok(size) => size.unwrap_or(0),
        Err(_) => return Err(Memory),
    };
    let mut bytes = vec![in alloc; 0u8; size as usize]?;
    match disk.read_at(name, 0, bytes.as_mut_slice()) {
        Ok(_) => Ok(Bytes::from_vec(bytes)),
        Err(_) => Err(Memory),
    }
}
