//! What was copied of a log.

ghost use Rattle.std.specs.Prelude.{◌≡◌};

use ls_base::Mark;
use std::marker::Model;
use wal_frames::Scan;

/// The mark up to which the frames of a log were copied, with what it takes to read on from there without
/// memory.
#[derive(Debug, Drop)]
pub struct Copied {
    pub(crate) scan: Scan,
    pub(crate) mark: Mark,
    pub(crate) buffer: Vec<u8>,
}

impl Model for Copied {
    ghost use Rattle.std.specs.Prelude.{◌≡◌, ◌<◌, ◌≤◌, length};
    ghost use Rattle.wal_frames.specs.Scanned.{scanned_to};
    ghost use Rattle.checkpointer.specs.CopiedState.{CopiedState};

    ghost Value = { CopiedState };

    ghost view = { λ c. record { head = c.scan.head; mark = c.mark } };

    ghost invariant = { λ c.
        (c.scan ≡ scanned_to c.scan.head c.mark) × (32 ≤ c.mark.end) × (0 < length c.buffer.items) };
}

impl Copied {
    /// The mark.
    pub fn mark(&self) -> &Mark
        ensures { result.now ≡ self.now.mark }
    {
        &self.mark
    }
}
