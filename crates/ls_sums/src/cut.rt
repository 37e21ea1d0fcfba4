//! The law of any cut.

ghost use Rattle.ls_sums.specs.AnyCut.{RegisterOfPieces, SumsOfPieces};

/// The sums don't depend on where the input is cut into pieces. Does nothing: its clauses hold of all
/// input.
pub fn any_cut()
    ensures register { RegisterOfPieces }
    ensures sums { SumsOfPieces }
{}
