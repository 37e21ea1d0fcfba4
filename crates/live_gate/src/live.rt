//! The trait of a live database.

ghost use Rattle.std.specs.Prelude.{◌≡◌, ◌<◌, ◌≤◌, ◌^◌, ℕ, List, Bool, Option, Some, length, IfOk, OnOk, OnErr};
ghost use Rattle.ls_base.specs.Fault.{HasCause};
ghost use Rattle.live_gate.specs.Cause.{PassHasCause};
ghost use Rattle.live_gate.specs.LiveRecord.{Told, Attachment, IfTold, GoesOn, is_at_rest};
ghost use Rattle.live_gate.specs.LiveCalls.{Keeps, found_at, Attaches, Enters, MayAdvance, Advances, Leaves, Passes};
ghost use Rattle.live_gate.specs.Legal.{IsLegal};
ghost use Rattle.live_gate.specs.LiveCalls.{GivesHead, GivesDbSize, GivesPage, GivesLogSize, Aims, Reads};

use crate::answer::{Attached, Pass};
use crate::fault::{LiveFault, PassFault};
use ls_base::{PageSize, Place};
use std::alloc::Global;

/// A live database: a database file and its log, which a writer that keeps to the gate may change before
/// each call.
///
/// It may tell its content or not; clauses on content hold where it does. Each such clause relates what
/// is told at the call's entry to what is told at its exit, and takes in the writer's moves before the
/// call. After a stop of the machine each call is a counted fault, up to the next `attach`.
pub trait Live {
    /// What is told of the database and of what was asked, where the live database tells it.
    ghost told: { Self → Told };

    /// The path and the `at_rest` of the last `attach` that answered Ok.
    ghost attached: { Self → Option Attachment };

    /// How often a call has failed, up to the last value of a `u64`.
    ghost fault_count: { Self → ℕ };

    /// At which paths a database is. It has a meaning only where the content is told.
    ghost is_there: { Self → List ℕ → Bool };

    /// What the live database would tell if it were attached to the database at the path.
    ghost content: { Self → List ℕ → Told };

    /// Names the database and gives up an older hold. `Absent` exactly where there is no such database
    /// file. `at_rest` says that nobody else has the database open, so that a pass may take place. `Memory`
    /// for want of it. After a fault or `Memory` the older hold is given up or as before. What is told
    /// after Ok is legal: its history, its log and its file fit together.
    fn attach(&mut self, alloc: Global, path: &str, at_rest: bool) -> Result<Attached, PassFault>
        ensures ok { OnOk result (attached self.new ≡ Some (record { path = path.now; at_rest = at_rest })) }
        ensures err { OnErr result (attached self.new ≡ attached self.old) }
        ensures found { IfOk result (λ found.
            IfTold (told self.new) (λ _. found ≡ found_at (is_there self.old path.now))) }
        ensures there { is_there self.new ≡ is_there self.old }
        ensures content { GoesOn (content self.old path.now) (content self.new path.now) (Attaches result) }
        ensures told { OnErr result (GoesOn (told self.old) (told self.new) (Attaches result)) }
        ensures legal { OnOk result (IfTold (told self.new) (λ r. IsLegal r.database)) }
        ensures cause { PassHasCause (fault_count self.old) (fault_count self.new) result };

    /// Holds the gate at the copied mark.
    fn enter(&mut self) -> Result<(), LiveFault>
        ensures told { GoesOn (told self.old) (told self.new) (Enters result) }
        ensures keeps { Keeps (attached self.old) (attached self.new) (is_there self.old) (is_there self.new) }
        ensures cause { HasCause (fault_count self.old) (fault_count self.new) result };

    /// Moves the hold to the mark that ends at this offset, in bytes from the start of the log. It is a mark
    /// at or past the held one. After a checksum coincidence there may be no such mark, and the hold stays.
    fn advance(&mut self, end: u64) -> Result<(), LiveFault>
        requires mark { IfTold (told self.old) (λ r. MayAdvance end r.database) }
        ensures told { GoesOn (told self.old) (told self.new) (Advances end result) }
        ensures keeps { Keeps (attached self.old) (attached self.new) (is_there self.old) (is_there self.new) }
        ensures cause { HasCause (fault_count self.old) (fault_count self.new) result };

    /// Gives the gate up. After a fault it is given up or as before.
    fn leave(&mut self) -> Result<(), LiveFault>
        ensures told { GoesOn (told self.old) (told self.new) (Leaves result) }
        ensures keeps { Keeps (attached self.old) (attached self.new) (is_there self.old) (is_there self.new) }
        ensures cause { HasCause (fault_count self.old) (fault_count self.new) result };

    /// Fills `into` with the first 100 bytes of the database file, and answers how many of them it has.
    fn db_head(&mut self, into: &mut [u8; 100]) -> Result<usize, LiveFault>
        ensures told { GoesOn (told self.old) (told self.new) (GivesHead result into.new) }
        ensures bound { IfOk result (λ n. n ≤ 100) }
        ensures keeps { Keeps (attached self.old) (attached self.new) (is_there self.old) (is_there self.new) }
        ensures cause { HasCause (fault_count self.old) (fault_count self.new) result };

    /// The length of the database file in bytes, below 2^63. A greater one is a counted fault.
    fn db_size(&mut self) -> Result<u64, LiveFault>
        ensures told { GoesOn (told self.old) (told self.new) (GivesDbSize result) }
        ensures bound { IfOk result (λ n. n < 2 ^ 63) }
        ensures keeps { Keeps (attached self.old) (attached self.new) (is_there self.old) (is_there self.new) }
        ensures cause { HasCause (fault_count self.old) (fault_count self.new) result };

    /// Fills `into`, which has the page size, with the page of this number, from 1. Past the end of the
    /// database file zeros stand.
    fn read_page(&mut self, size: PageSize, number: u32, into: &mut [u8]) -> Result<(), LiveFault>
        requires whole { length into.old ≡ size }
        requires number { 1 ≤ number }
        ensures told { GoesOn (told self.old) (told self.new) (GivesPage size number result into.new) }
        ensures keeps { Keeps (attached self.old) (attached self.new) (is_there self.old) (is_there self.new) }
        ensures cause { HasCause (fault_count self.old) (fault_count self.new) result };

    /// The length of the log in bytes, no less than that of its committed part; 0 where there is no log.
    fn wal_size(&mut self) -> Result<u64, LiveFault>
        ensures told { GoesOn (told self.old) (told self.new) (GivesLogSize result) }
        ensures keeps { Keeps (attached self.old) (attached self.new) (is_there self.old) (is_there self.new) }
        ensures cause { HasCause (fault_count self.old) (fault_count self.new) result };

    /// Lets the next `read` answer from this offset on, in bytes from the start of the log.
    fn aim(&mut self, at: u64) -> Result<(), LiveFault>
        ensures told { GoesOn (told self.old) (told self.new) (Aims at result) }
        ensures keeps { Keeps (attached self.old) (attached self.new) (is_there self.old) (is_there self.new) }
        ensures cause { HasCause (fault_count self.old) (fault_count self.new) result };

    /// Fills a front of `into`, which isn't empty, with the bytes of the log behind those answered since the
    /// last `aim`, and answers how many they are. Inside the committed part these are its own, and at least
    /// one. Past it any bytes or none come.
    fn read(&mut self, into: &mut [u8]) -> Result<usize, LiveFault>
        requires room { 0 < length into.old }
        ensures told { GoesOn (told self.old) (told self.new) (Reads result into.new) }
        ensures bound { IfOk result (λ n. n ≤ length into.old) }
        ensures keeps { Keeps (attached self.old) (attached self.new) (is_there self.old) (is_there self.new) }
        ensures cause { HasCause (fault_count self.old) (fault_count self.new) result };

    /// Copies all frames into the database file and leaves a log of 0 bytes, where the last mark has this
    /// place and the gate is held there. `Kept`, which changes nothing, only where that isn't so, or where
    /// the live database refuses now; it refuses where `attach` didn't say that nobody else has the database
    /// open. `Memory` for want of it. After a fault or `Memory` the pass took place or didn't.
    fn pass(&mut self, alloc: Global, place: &Place) -> Result<Pass, PassFault>
        ensures told { GoesOn (told self.old) (told self.new)
            (Passes place.now (is_at_rest (attached self.old)) result) }
        ensures keeps { Keeps (attached self.old) (attached self.new) (is_there self.old) (is_there self.new) }
        ensures cause { PassHasCause (fault_count self.old) (fault_count self.new) result };

    /// How often a call has failed.
    fn faults(&self) -> u64
        ensures { result ≡ fault_count self.now };

    /// What is told is the content of the database to which the live database is attached.
    ghost stands: { (live : Self) (at : Attachment) → attached live ≡ Some at → content live at.path ≡ told live };
}
