//! What an object in memory counts of its calls, and which of them are to fail.

ghost use Rattle.std.specs.Prelude.{◌≡◌, ◌≤◌, ◌++◌, [], ◌∷◌, ◌↔◌, Some, None, IsTrue, IsFalse, OnOk, OnErr};
ghost use Rattle.crash_disk.specs.Plan.{Plan, counted, unused, with_failing, starved_once, nearer, IsNextToFail};
ghost use Rattle.crash_disk.specs.Plan.{passed, failed};

use ls_base::Memory;
use std::alloc::Global;
use std::marker::Model;

/// The counts of an object in memory, and the numbers of the calls that are to fail.
#[derive(Debug, Drop)]
pub struct CallPlan {
    calls: u64,
    faults: u64,
    starved: u64,
    failing: Vec<u64>,
    /// How many more calls pass before a stop.
    stop: Option<u64>,
}

impl Model for CallPlan {
    ghost use Rattle.crash_disk.specs.Plan.{Plan};

    ghost Value = { Plan };

    ghost view = { λ p. record {
      calls = p.calls;
      faults = p.faults;
      starved = p.starved;
      failing = p.failing.items;
      stop = p.stop;
    } };
}

impl CallPlan {
    /// Nothing counted, and no call that is to fail. Takes no memory.
    pub fn new(alloc: Global) -> CallPlan
        ensures { result ≡ unused }
    {
        CallPlan {
            calls: 0,
            faults: 0,
            starved: 0,
            failing: Vec::new(alloc),
            stop: None,
        }
    }

    /// The call of this number is to fail too.
    pub fn fail_at(&mut self, call: u64) -> Result<(), Memory>
        ensures ok { OnOk result (self.new ≡ with_failing call self.old) }
        ensures err { OnErr result (self.new ≡ self.old) }
    {
        self.failing.push(call)?;
        Ok(())
    }

    /// So many more calls pass, and each later one is to fail.
    pub fn stop_after(&mut self, calls: u64)
        ensures { self.new ≡ record self.old { stop = Some calls } }
    {
        self.stop = Some(calls);
    }

    /// No stop stands any longer.
    pub fn lift_stop(&mut self)
        ensures { self.new ≡ record self.old { stop = None } }
    {
        self.stop = None;
    }

    /// Counts the next call, and says whether it is to fail. If so, that is counted too.
    pub fn next_call_fails(&mut self) -> bool
        ensures value { IsTrue result ↔ IsNextToFail self.old }
        ensures fails { IsTrue result → self.new ≡ failed self.old }
        ensures passes { IsFalse result → self.new ≡ passed self.old }
        ensures later { self.old.faults ≤ self.new.faults }
    {
        let fails = self.is_next_to_fail();
        self.calls = self.calls.saturating_add(1);
        self.stop = nearer(self.stop);
        if fails {
            self.faults = self.faults.saturating_add(1);
        }
        fails
    }

    /// Whether the next call is to fail.
    fn is_next_to_fail(&self) -> bool
        ensures { IsTrue result ↔ IsNextToFail self.now }
    {
        if self.stop == Some(0) {
            return true;
        }
        let next = self.calls.saturating_add(1);
        self.failing.contains(&next)
    }

    /// Counts that the call failed for want of memory.
    pub fn starve(&mut self)
        ensures counts { self.new ≡ starved_once self.old }
        ensures later { self.old.faults ≤ self.new.faults }
    {
        self.faults = self.faults.saturating_add(1);
        self.starved = self.starved.saturating_add(1);
    }

    /// How many calls failed.
    pub fn faults(&self) -> u64
        ensures { result ≡ self.now.faults }
    {
        self.faults
    }

    /// How many calls failed for want of memory.
    pub fn starved(&self) -> u64
        ensures { result ≡ self.now.starved }
    {
        self.starved
    }
}

/// One call less before a stop.
fn nearer(stop: Option<u64>) -> Option<u64>
    ensures { result ≡ nearer stop }
{
    match stop {
        Some(left) => Some(left.saturating_sub(1)),
        None => None,
    }
}
