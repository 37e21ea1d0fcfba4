//! Laws of a replica that no stop at any moment harms.
//!
//! Each function does nothing: its clauses are statements on all replicas, for the proofs of callers.

ghost use Rattle.replica_store.specs.CarryLaws.{SettledIsAsRead, CarriesOnItself, CarriesOnThen};
ghost use Rattle.replica_store.specs.CarryLaws.{TemporaryFilesChangeNothing};
ghost use Rattle.replica_store.specs.CarryLaws.{NextFileCarriesOn, NextFileSettles};
ghost use Rattle.replica_store.specs.CarryLaws.{MergedFileCarriesOn, MergedFileSettles};
ghost use Rattle.replica_store.specs.CarryLaws.{NoneDropped, OneMoreDropped, DropsCarryOn};
ghost use Rattle.replica_store.specs.CarryLaws.{SyncedNamesSettle, SyncedNamesAddNoImage, SyncedNamesCarryOn};
ghost use Rattle.replica_store.specs.CarryLaws.{CrashesSettle, CrashesLoseNothingSettled};
ghost use Rattle.replica_store.specs.CarryLaws.{LongerHistoryKeeps, MoreFilesRetainMore};
ghost use Rattle.replica_store.specs.CarryLaws.{FaithfulFilesExtend, OneExtension};
ghost use Rattle.replica_store.specs.CarryLaws.{EmptyIsSettled, WholeIsSettled};

/// A replica is settled exactly where a crash leaves its files as they read. It carries on while nothing is done, or
/// nothing but a temporary file changes, and one step after another is a step.
pub fn settled_replicas_carry_on()
    ensures as_read { SettledIsAsRead }
    ensures itself { CarriesOnItself }
    ensures then { CarriesOnThen }
    ensures temporary { TemporaryFilesChangeNothing }
{}

/// A put of a file with the next line carries on, and settles the replica for the longer log.
pub fn next_files_carry_on()
    ensures carries_on { NextFileCarriesOn }
    ensures settles { NextFileSettles }
{}

/// A put of a file that is faithful to the log as it is, as a merge of its files is, carries on and settles.
pub fn merged_files_carry_on()
    ensures carries_on { MergedFileCarriesOn }
    ensures settles { MergedFileSettles }
{}

/// Files that may go are dropped one after another.
pub fn drops_carry_on()
    ensures none { NoneDropped }
    ensures one_more { OneMoreDropped }
    ensures carry_on { DropsCarryOn }
{}

/// A sync of the names settles a replica, and a crash leaves nothing that it might not have left before.
pub fn synced_names_settle()
    ensures settle { SyncedNamesSettle }
    ensures no_new_image { SyncedNamesAddNoImage }
    ensures carry_on { SyncedNamesCarryOn }
{}

/// What a crash leaves is a settled replica, for a front of the log; of a settled one, for the whole of it.
pub fn crashes_leave_settled_replicas()
    ensures faithful { CrashesSettle }
    ensures settled { CrashesLoseNothingSettled }
{}

/// A longer history keeps what a shorter one says, and more files retain what fewer did.
pub fn growth_keeps()
    ensures history { LongerHistoryKeeps }
    ensures files { MoreFilesRetainMore }
{}

/// Files that are faithful to a longer log, with one for each new line, tell that log and no other.
pub fn files_tell_one_longer_log()
    ensures tell { FaithfulFilesExtend }
    ensures one { OneExtension }
{}

/// A disk on which nothing was done is settled for the empty log, and one with a single file of the whole database for
/// the line that the file tells.
pub fn replicas_begin_settled()
    ensures empty { EmptyIsSettled }
    ensures whole { WholeIsSettled }
{}
