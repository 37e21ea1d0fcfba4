//! Laws of runs of a replication.
//!
//! Each function does nothing: its clauses are statements on all replicas, for the proofs of callers.

ghost use Rattle.replica_runs.specs.RoundLaws.{OneMoreLine, RunsBegin, RunsOutlastMoves, OneMoreRound, RunsEnd};
ghost use Rattle.replica_runs.specs.RoundLaws.{RunsAreRefused, RunsAreRefusedAtOnce};
ghost use Rattle.replica_runs.specs.NewestLaws.{NewestIsRecorded};
ghost use Rattle.replica_runs.specs.RunLaws.{SyncedNamesBegin, NothingDoneKeeps};
ghost use Rattle.replica_runs.specs.RunLaws.{CarriedOnKeeps, NewOnesStay, NewOnesJoin, CarriedOnExtends};
ghost use Rattle.replica_runs.specs.RunLaws.{CrashesAreFitStarts, EndsAreFitStarts, RunsJoin};

/// A run begins by a sync of the names. One that was refused before keeps all.
pub fn runs_begin()
    ensures synced { SyncedNamesBegin }
    ensures refused { NothingDoneKeeps }
{}

/// Rounds that carry on from there keep what there was before the run, whatever a crash leaves, and what the rounds
/// that ended stored; and the files tell the log that they came to.
pub fn runs_keep()
    ensures keep { CarriedOnKeeps }
    ensures stay { NewOnesStay }
    ensures join { NewOnesJoin }
    ensures extend { CarriedOnExtends }
{}

/// The end of a run, and what a crash left at any moment of it, is a fit start of the next one; and two runs are one.
pub fn runs_follow()
    ensures crashes { CrashesAreFitStarts }
    ensures ends { EndsAreFitStarts }
    ensures runs { RunsJoin }
{}

/// Over files that tell the truth, the line that a run follows is the newest one of the log, where its transaction is
/// retained, and else none.
pub fn newest_lines_are_recorded()
    ensures { NewestIsRecorded }
{}

/// A run begins where the names were synced, stays where it is while the database goes on, and goes from one round to
/// the next. The line of a round stands behind those before it.
pub fn rounds_follow()
    ensures line { OneMoreLine }
    ensures begin { RunsBegin }
    ensures moves { RunsOutlastMoves }
    ensures round { OneMoreRound }
{}

/// A run ends behind its last round, by a refusal in the next one, or by one before the names were synced.
pub fn runs_end()
    ensures done { RunsEnd }
    ensures refused { RunsAreRefused }
    ensures at_once { RunsAreRefusedAtOnce }
{}
