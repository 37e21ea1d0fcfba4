//! The trait of an output.

ghost use Rattle.std.specs.Prelude.{◌≡◌, ◌≤◌, ◌++◌, ℕ, List, Option, Some, take, length, OnOk, OnErr};
ghost use Rattle.ls_base.specs.Fault.{HasCause};
ghost use Rattle.crash_disk.specs.Output.{gains_text, GainsFront};

use crate::fault::OutFault;

/// An output that takes bytes at its end.
pub trait Out {
    /// The bytes that were put, where the output tells them.
    ghost text: { Self → Option (List ℕ) };

    /// How often a call has failed, up to the last value of a `u64`.
    ghost fault_count: { Self → ℕ };

    /// Puts the bytes last. At a fault a front of them may have been put.
    fn put(&mut self, bytes: &[u8]) -> Result<(), OutFault>
        ensures ok { OnOk result (text self.new ≡ gains_text (text self.old) bytes.now) }
        ensures err { OnErr result (GainsFront (text self.old) (text self.new) bytes.now) }
        ensures cause { HasCause (fault_count self.old) (fault_count self.new) result };

    /// How often a call has failed.
    fn faults(&self) -> u64
        ensures { result ≡ fault_count self.now };
}
