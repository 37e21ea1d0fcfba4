//! The bytes of a frame that hasn't come whole yet.

ghost use Rattle.std.specs.Prelude.{◌≡◌, ◌+◌, ◌≤◌, ◌++◌, [], length, IfOk};

use ls_base::Memory;
use std::alloc::Global;
use std::marker::Model;

/// The first bytes of a frame, with room for the rest.
#[derive(Debug, Drop)]
pub(crate) struct Part {
    buffer: Vec<u8>,
    held: usize,
}

impl Model for Part {
    ghost use Rattle.std.specs.Prelude.{◌≤◌, length, take};
    ghost use Rattle.wal_frames.specs.PartState.{PartState};

    ghost Value = { PartState };

    ghost view = { λ p. record { room = length p.buffer.items; bytes = take p.held p.buffer.items } };

    ghost invariant = { λ p. p.held ≤ length p.buffer.items };
}

impl Part {
    /// No bytes, with room for so many. `Memory` for want of it.
    pub(crate) fn new(alloc: Global, room: usize) -> Result<Part, Memory>
        ensures { IfOk result (λ part. part ≡ record { room = room; bytes = [] }) }
    {
        let buffer = vec![in alloc; 0u8; room]?;
        Ok(Part { buffer, held: 0 })
    }

    /// How many bytes are held.
    pub(crate) fn len(&self) -> usize
        ensures value { result ≡ length self.now.bytes }
        ensures room { result ≤ self.now.room }
    {
        self.held
    }

    /// Puts the bytes last, for which there is room.
    pub(crate) fn push(&mut self, bytes: &[u8])
        requires { length self.old.bytes + length bytes.now ≤ self.old.room }
        ensures { self.new ≡ record { room = self.old.room; bytes = self.old.bytes ++ bytes.now } }
    {
        let end = self.held + bytes.len();
        self.buffer[self.held..end].copy_from_slice(bytes);
        self.held = end;
    }

    /// The bytes, lent.
    pub(crate) fn as_slice(&self) -> &[u8]
        ensures { result.now ≡ self.now.bytes }
    {
        &self.buffer[..self.held]
    }

    /// Holds nothing any more.
    pub(crate) fn clear(&mut self)
        ensures { self.new ≡ record { room = self.old.room; bytes = [] } }
    {
        self.held = 0;
    }
}
