//! What follows from the rules of a replica, whatever its files are.

ghost use Rattle.replica_store.specs.FaithLaws.{EmptyIsFaithful, WholeIsFaithful, PieceIsFaithful};
ghost use Rattle.replica_store.specs.ListLaws.{OneList};

/// Files have one list of names. Does nothing: its clause holds of all files.
pub fn files_have_one_list()
    ensures { OneList }
{}

/// A replica can be faithful: without files to the empty log, with one file of the whole database to the line that
/// the file tells, and with a piece that fits behind it to two. Does nothing: its clauses hold of all such files.
pub fn replicas_can_be_faithful()
    ensures empty { EmptyIsFaithful }
    ensures whole { WholeIsFaithful }
    ensures piece { PieceIsFaithful }
{}
