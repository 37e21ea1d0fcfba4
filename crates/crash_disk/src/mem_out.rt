//! An output in memory.

ghost use Rattle.std.specs.Prelude.{◌≡◌, ◌++◌, ◌≤◌, [], ◌∷◌, Some, OnOk, OnErr};
ghost use Rattle.ls_base.specs.Fault.{HasCause};
ghost use Rattle.crash_disk.specs.Plan.{unused, with_failing, FailsOrStarves};
ghost use Rattle.crash_disk.specs.Memory.{OutState};

use crate::call_plan::CallPlan;
use crate::fault::OutFault;
use crate::out::Out;
use ls_base::{Bytes, Memory};
use std::alloc::Global;
use std::marker::Model;

/// An output in memory. It tells its bytes.
///
/// A `put` fails where `fail_at` named its number, and for want of memory, which `starved` counts too.
/// Where it fails, it has put nothing.
#[derive(Debug, Drop)]
pub struct MemOut {
    text: Bytes,
    plan: CallPlan,
}

impl Model for MemOut {
    ghost use Rattle.crash_disk.specs.Memory.{OutState};

    ghost Value = { OutState };

    ghost view = { λ o. record { text = o.text; plan = o.plan } };
}

impl MemOut {
    /// An output without bytes. Nothing is counted, and no call is to fail. Takes no memory.
    pub fn new(alloc: Global) -> MemOut
        ensures { result ≡ record { text = []; plan = unused } }
    {
        MemOut {
            text: Bytes::new(alloc),
            plan: CallPlan::new(alloc),
        }
    }

    /// The bytes that were put.
    pub fn bytes(&self) -> &[u8]
        ensures { result.now ≡ self.now.text }
    {
        self.text.as_slice()
    }

    /// Makes the `put` of this number fail too, counted from 1 since `new`. `Memory` for want of it, and
    /// the output is then as it was.
    pub fn fail_at(&mut self, call: u64) -> Result<(), Memory>
        ensures ok { OnOk result (self.new ≡ record self.old { plan = with_failing call self.old.plan }) }
        ensures err { OnErr result (self.new ≡ self.old) }
    {
        self.plan.fail_at(call)?;
        Ok(())
    }

    /// How many calls were faults for want of memory.
    pub fn starved(&self) -> u64
        ensures { result ≡ self.now.plan.starved }
    {
        self.plan.starved()
    }
}

impl Out for MemOut {
    ghost text = { λ o. Some o.text };

    ghost fault_count = { λ o. o.plan.faults };

    fn put(&mut self, bytes: &[u8]) -> Result<(), OutFault>
        ensures ok { OnOk result (self.new.text ≡ self.old.text ++ bytes.now) }
        ensures err { OnErr result (self.new.text ≡ self.old.text) }
        ensures plan { FailsOrStarves self.old.plan self.new.plan result }
        ensures cause { HasCause self.old.plan.faults self.new.plan.faults result }
    {
        if self.plan.next_call_fails() {
            return Err(OutFault);
        }
        match self.text.extend(bytes) {
            Ok(()) => Ok(()),
            Err(Memory) => {
                self.plan.starve();
                Err(OutFault)
            }
        }
    }

    fn faults(&self) -> u64 {
        self.plan.faults()
    }
}
