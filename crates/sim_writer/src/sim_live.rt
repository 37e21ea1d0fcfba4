//! The scripted writer.

ghost use Rattle.std.specs.Prelude.{◌≡◌, IfOk};
ghost use Rattle.std.specs.List.{concat};
ghost use Rattle.sim_writer.specs.declared.act.Act.TheVariants.{Commit, Backfill, Restart, Cut, Stop};
ghost use Rattle.sim_writer.specs.SimState.{ActsAs, IsFirst, Begins};

use crate::act::Act;
use crate::commit::count_if;
use crate::frames::is_commit;
use crate::history::History;
use crate::machine::Machine;
use crate::questions::Questions;
use crate::rest::rest_entry;
use ls_base::{Bytes, ChangePages, Memory, PageSize, Pages};
use ls_sums::Order;
use std::alloc::Global;
use std::marker::Model;
use wal_frames::WalHeader;

/// A live database in memory, with a writer that does what it is told.
///
/// It is always legal. It tells its content, moves only by `act`, and refuses each pass. A call of `Live` fails where a
/// fault stands for it, and `read` also for want of memory, which `starved` counts. After a checksum
/// coincidence `advance` leaves the hold as it is.
#[derive(Debug, Drop)]
pub struct SimLive {
    pub(crate) alloc: Global,
    pub(crate) name: Bytes,
    pub(crate) machine: Machine,
    pub(crate) asked: Questions,
    pub(crate) path: Option<Bytes>,
    pub(crate) at_rest: bool,
    // Whether the next call is to fail.
    pub(crate) fails: bool,
    pub(crate) faults: u64,
    pub(crate) skipped: u64,
    pub(crate) starved: u64,
}

impl Model for SimLive {
    ghost use Rattle.sim_writer.specs.SimState.{SimState};
    ghost use Rattle.sim_writer.specs.Questions.{asked_of};
    ghost use Rattle.sim_writer.specs.Sound.{IsSound};
    ghost use Rattle.live_gate.specs.Still.{attachment_of};

    ghost Value = { SimState };

    ghost view = { λ s. record {
      name = s.name;
      machine = s.machine;
      asked = asked_of s.asked;
      attached = attachment_of s.path s.at_rest;
      fails = s.fails;
      faults = s.faults;
      skipped = s.skipped;
      starved = s.starved;
    } };

    ghost invariant = { λ s. IsSound s.machine };
}

impl SimLive {
    /// A database file of these pages, of which there is at least one, and a log of no bytes. The database is
    /// found under this name. `Memory` for want of it.
    pub fn new(
        alloc: Global,
        name: &str,
        size: PageSize,
        order: Order,
        salts: (u32, u32),
        first: &Pages,
    ) -> Result<SimLive, Memory>
        requires first { IsFirst size first.now }
        ensures begins { IfOk result (Begins name.now size order salts first.now) }
    {
        let head = WalHeader::new(order, size, 0, salts.0, salts.1);
        let file = joined(alloc, first)?;
        let entry = rest_entry(alloc, file.as_slice(), size)?;
        let mut called = Bytes::new(alloc);
        called.extend(name.as_bytes())?;
        let machine = Machine::fresh(alloc, head, file, entry)?;
        Ok(SimLive {
            alloc,
            name: called,
            machine,
            asked: Questions::new(alloc),
            path: None,
            at_rest: false,
            fails: false,
            faults: 0,
            skipped: 0,
            starved: 0,
        })
    }

    /// Does the act now. `false`, and `skipped` rises, exactly where it isn't legal; nothing else changes then.
    /// `Memory` for want of it, and nothing has changed then.
    pub fn act(&mut self, act: Act) -> Result<bool, Memory>
        ensures { ActsAs act result self.old self.new }
    {
        match act {
            Act::Commit { pages, size } => self.commit(&pages, size),
            Act::Loose(bytes) => {
                self.machine.put_loose(bytes.as_slice())?;
                Ok(true)
            }
            Act::Backfill { mark } => self.backfill(mark),
            Act::Restart { salt2 } => self.restart(salt2),
            Act::Cut => self.cut(),
            Act::Stop { mark, tail } => self.stop(mark, tail),
            Act::Refuse(refuses) => {
                self.machine.refuses = refuses;
                Ok(true)
            }
            Act::Fault => {
                self.fails = true;
                Ok(true)
            }
        }
    }

    /// Commits the pages where they may be.
    fn commit(&mut self, pages: &ChangePages, size: u32) -> Result<bool, Memory>
        ensures { ActsAs (Commit pages.now size) result self.old self.new }
    {
        if !is_commit(self.machine.head.size, pages, size) {
            self.skipped = count_if(self.skipped, true);
            return Ok(false);
        }
        self.machine.commit(self.alloc, pages, size)?;
        Ok(true)
    }

    /// Copies the frames up to the mark of this number where that may be.
    fn backfill(&mut self, mark: u32) -> Result<bool, Memory>
        ensures { ActsAs (Backfill mark) result self.old self.new }
    {
        if self.machine.backfill(self.alloc, mark)? {
            return Ok(true);
        }
        self.skipped = count_if(self.skipped, true);
        Ok(false)
    }

    /// Begins the log anew where that may be.
    fn restart(&mut self, salt2: u32) -> Result<bool, Memory>
        ensures { ActsAs (Restart salt2) result self.old self.new }
    {
        if self.machine.restart(self.alloc, salt2)? {
            return Ok(true);
        }
        self.skipped = count_if(self.skipped, true);
        Ok(false)
    }

    /// Leaves a log of no bytes where that may be.
    fn cut(&mut self) -> Result<bool, Memory>
        ensures { ActsAs Cut result self.old self.new }
    {
        if self.machine.cut(self.alloc)? {
            return Ok(true);
        }
        self.skipped = count_if(self.skipped, true);
        Ok(false)
    }

    /// Stops the machine where that may be.
    fn stop(&mut self, mark: u32, tail: Bytes) -> Result<bool, Memory>
        ensures { ActsAs (Stop mark tail) result self.old self.new }
    {
        if self.machine.stop(self.alloc, mark, tail.as_slice())? {
            return Ok(true);
        }
        self.skipped = count_if(self.skipped, true);
        Ok(false)
    }

    /// The states that the database had, in the order in which they came.
    pub fn history(&self) -> &History
        ensures { result.now ≡ self.now.machine.history }
    {
        &self.machine.history
    }

    /// How many checksum coincidences came.
    pub fn chances(&self) -> u64
        ensures { result ≡ self.now.machine.chances }
    {
        self.machine.chances
    }

    /// How many acts weren't legal at their moment.
    pub fn skipped(&self) -> u64
        ensures { result ≡ self.now.skipped }
    {
        self.skipped
    }

    /// How many calls failed for want of memory.
    pub fn starved(&self) -> u64
        ensures { result ≡ self.now.starved }
    {
        self.starved
    }
}

/// The pages one after another.
fn joined(alloc: Global, pages: &Pages) -> Result<Bytes, Memory>
    ensures { IfOk result (λ bytes. bytes ≡ concat pages.now) }
{
    let mut bytes = Bytes::new(alloc);
    for at in 0..pages.len() {
        let Some(page) = pages.get(at) else {
            unreachable!()
        };
        bytes.extend(page.bytes())?;
    }
    Ok(bytes)
}
