//! The laws of pieces.

ghost use Rattle.wal_follow.specs.FollowLaws.{FitsStays, PassedFits};
ghost use Rattle.wal_follow.specs.PieceLaws as laws;

/// The laws of pieces. Does nothing: its clauses hold of all live databases.
pub fn piece_laws()
    ensures leads_on { laws.PieceLeadsOn }
    ensures leads_from_rest { laws.PieceLeadsFromRest }
    ensures stays { laws.PieceStays }
    ensures views { laws.PieceHasTheView }
    ensures whole { laws.WholeMakesAll }
    ensures recorded { laws.MarksHaveTheirView }
{}

/// A follower that fits a live database goes on fitting it under the gate, whatever its writer does, while
/// the machine doesn't stop. Once `passed` was called it fits what a pass of this run at its place left. Does
/// nothing: its clauses hold of all followers and live databases.
pub fn follow_laws()
    ensures stays { FitsStays }
    ensures passed { PassedFits }
{}
