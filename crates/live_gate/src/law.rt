//! The laws of a live database that moves.

ghost use Rattle.live_gate.specs.LegalLaws.{MarksAreRecorded, StillIsLegal};
ghost use Rattle.live_gate.specs.Moves.{CommitsAreSteps, CopyingIsAStep, RestartsAreSteps, PassesKeepLegal};
ghost use Rattle.live_gate.specs.StepLaws.{StepsStay, StepsJoin, MovesStay, MovesJoin};
ghost use Rattle.live_gate.specs.Stops.{FallingBackIsAStep, StopsAtRestAreSteps};

/// No move is a step of the writer, and two steps are one. Does nothing: its clauses hold of all live
/// databases.
pub fn step_laws()
    ensures stay { StepsStay }
    ensures join { StepsJoin }
    ensures told_stay { MovesStay }
    ensures told_join { MovesJoin }
{}

/// The marks of a log are the places of the last entries, and a database that never moves is legal,
/// whatever its two files hold. Does nothing: its clauses hold of all live databases.
pub fn legal_laws()
    ensures marks { MarksAreRecorded }
    ensures still { StillIsLegal }
{}

/// Each move is a step of the writer: a commit more, also while the gate is held; copying into the
/// database file, up to the held mark; a restart or a cut, by which the log ceases to have a commit. A
/// pass keeps a legal database legal. Does nothing: its clauses hold of all live databases.
pub fn move_laws()
    ensures commits { CommitsAreSteps }
    ensures copying { CopyingIsAStep }
    ensures restarts { RestartsAreSteps }
    ensures passes { PassesKeepLegal }
{}

/// A stop of the machine is a step of the writer: the log falls back to a mark at or past the copied one,
/// or to nothing, and entries that the history has come once more. Does nothing: its clauses hold of all
/// live databases.
pub fn stop_laws()
    ensures back { FallingBackIsAStep }
    ensures at_rest { StopsAtRestAreSteps }
{}
